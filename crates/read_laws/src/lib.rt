// What a reading gives, by the rules alone: a datum that a put accepts. There is no code here; proofs/ has the laws that the
// read-back leans on.
#![tactic(auto)]

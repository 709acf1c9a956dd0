// What a collection does, by the rules alone: what it keeps, what it frees, and that what is kept reads and compares as before.
// There is no code here; proofs/ has the laws.
#![tactic(auto)]

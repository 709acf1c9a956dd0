// `equal` beside the standard: on the data that document 01 lists it is `equal?` of R7RS small, by the rules alone. There is
// no code here; proofs/ has the theorem.
#![tactic(auto)]

// What holds over any sequence of calls, by the rules alone: the slots in use are those that the history of the calls gives, and
// what they show stays. There is no code here; proofs/ has the laws.
#![tactic(auto)]

// Laws that speak of no heap: lists, tests, numbers. There is no code here; specs/ has the few general words that the
// rules are written in, and proofs/ what is known of them.
#![tactic(auto)]

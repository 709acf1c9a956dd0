// Laws of `equal`, by the rules alone: its levels, and what a run that looks at each goal once keeps. There is no code here;
// proofs/ has the laws that the code of `equal` leans on.
#![tactic(auto)]

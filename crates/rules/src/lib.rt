// The rules of document 01, as definitions. There is no code here; specs/ is what a reader must believe, file by file in
// the paper's order, and proofs/ what is proved of the rules themselves.
#![tactic(auto)]

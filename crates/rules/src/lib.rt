// No code: specs/ holds document 01's rules as definitions that compute, proofs/ what is proved of
// them.
#![tactic(auto)]

// No functions: whole pages, computed from the definitions of the crates below (specs/, proofs/).
#![tactic(auto)]

// No functions: the starred figures of document 01, computed from the definitions of the crates below (specs/, proofs/).
#![tactic(auto)]

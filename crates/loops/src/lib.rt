// No functions: one definition of a loop that counts and one of a loop that does not, with the laws of their invariants (specs/, proofs/).
#![tactic(auto)]

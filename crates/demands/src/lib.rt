// No functions: what the reader promises, as theorems over the contract of `read`.
#![tactic(auto)]

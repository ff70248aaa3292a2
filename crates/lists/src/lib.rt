// Lists: the few operations on lists that the definitions use (specs/) and their laws (proofs/). No code.
#![tactic(auto)]

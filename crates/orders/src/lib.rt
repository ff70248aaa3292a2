// The tree of partial orders of the stops 1 to n, the orders of 1 to n, and the list of all n! of them (specs/), with their laws
// (proofs/). No legs and no code.
#![tactic(auto)]

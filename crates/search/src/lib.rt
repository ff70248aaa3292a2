// The written run over any problem (specs/), and the theorems about it (proofs/), which ask of a problem no more than laws of its children,
// its bound, its dominance and its comparison of orders. No code, no table, no pool.
#![tactic(auto)]

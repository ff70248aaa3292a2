// A day: path cost, cost, bounds and dominance of the nodes of a search over orders, whatever is flown (specs/); and the laws that such a
// day owes, with everything that `search` asks of a problem made of them once (proofs/). No code.
#![tactic(auto)]

// The format of a job file: what a file holds and its bytes, what the reader answers for every string of bytes, what the writer does for all
// contents and every buffer, with document 01's case l and our own cases (specs/). specs/Demands says what is proved of these: the round trip
// both ways, and what holds of every refusal. No code.
#![tactic(auto)]

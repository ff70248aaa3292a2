// The format of what is printed: text as bytes, numbers in decimal, the lines of a run, finished or stopped, and of a refusal, with document
// 01's case l (specs/). No code.
#![tactic(auto)]

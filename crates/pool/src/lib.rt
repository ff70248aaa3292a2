// The pool and its index while a call works (specs/Code), and the pool settled when the call returns. The functions are public for the crates above and not
// for hosts; what they require, those crates meet.
#![tactic(auto)]

pub mod rank;
pub mod settle;

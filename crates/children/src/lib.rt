// Parts 1 to 5 of a step: the children of a node with their bounds, U and its order, and which children rules 1, 2 and 4 leave.
// specs/Code has what the functions compute. They are public for the crates above and not for hosts; what they require, those
// crates meet.
#![tactic(auto)]

pub mod best;
pub mod family;
pub mod rules;
pub mod setting;
pub mod survivors;

// The verdict, the stops and the figures of a node record, and the record with a stop added, from its words. The functions are public
// for the crate above and not for hosts; the public ones ask nothing of the words.
#![tactic(auto)]

pub mod check;
pub mod cost;
pub mod extend;
mod node;
pub mod order;

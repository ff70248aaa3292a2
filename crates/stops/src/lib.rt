// Legs, costs, both bounds and dominance over the stops of one table, which make a day of them (specs/), and the laws of that day
// (proofs/). The functions are public for the crates above and not for hosts; what they require, those crates meet.
#![tactic(auto)]

pub mod bound;
pub mod cost;
pub mod legs;
pub mod node_record;
pub mod order_words;
pub mod sets;
pub mod table;

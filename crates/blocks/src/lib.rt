// Least bounds of blocks of the active lane: a block is a power of two of places, and the index has the least bound of each at its front. So
// the least bound of all is found among the minima, and its place in one block. The functions are public for the crates above and not
// for hosts; what they require, those crates meet.
#![tactic(auto)]

pub mod find;
pub mod keep;

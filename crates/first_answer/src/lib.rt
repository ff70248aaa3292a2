// The first order that the unit makes by itself, and what a call for it answers, as definitions (specs/), and what request A.1 says of it, as
// statements (specs/Request), proved here (proofs/). No function: the struct that crosses the border stands here, and the code is crate
// `first_order`.
#![tactic(auto)]

use sizes::ORDER_PLACES;

// What a call for a first order answers: number 0 with a cost and an order, or the number of a refusal.
#[repr(C)]
#[derive(Clone, Copy)]
pub struct FirstOrder {
    pub number: u32,
    pub cost: u32,
    // zeros past n
    pub order: [u8; ORDER_PLACES],
}

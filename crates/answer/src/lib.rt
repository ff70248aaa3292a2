// Calls, checks, reports and the answer to a call, as definitions, and the letter's demands of a planner, as statements (specs/, specs/Demands),
// proved of the written run (proofs/). What crosses the border stands here, a job and a report, and why a call is refused, so that what reads a job
// or prints a report need not rest on the planner.
#![tactic(auto)]

pub mod refusal;

use sizes::ORDER_PLACES;

// What a caller chooses: how many stops, which selection, which rules and which bound.
#[repr(C)]
#[derive(Clone, Copy)]
pub struct Job {
    pub n: u32,
    pub selection: u32,
    pub rules: u32,
    pub bound: u32,
}

// What the planner answers: the number of a refusal, or 0; and the counts of the run. Number 0 alone does not say that the order is the
// smallest of the cheapest: with mark 0 it is, with mark 1 the budget stopped the run, and the order is the best that was known (request A.3).
#[repr(C)]
#[derive(Clone, Copy)]
pub struct Report {
    pub number: u32,
    // 1 if the budget stopped the run
    pub mark: u32,
    pub cost: u32,
    // of a stopped run: no order costs less
    pub floor: u32,
    // zeros past n
    pub order: [u8; ORDER_PLACES],
    pub branched: u64,
    pub generated: u64,
    pub eliminated: u64,
    // at the end
    pub active: u64,
    pub most: u64,
}

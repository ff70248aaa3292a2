// What a run goes by: how many stops there are, the caller's choices, how many nodes may be branched (request A.3), and which stops must be flown before
// which (request A.6).
use pairs::Precedence;

#[derive(Clone, Copy)]
pub struct Setting {
    pub n: u32,
    pub selection: u32,
    pub rules: u32,
    pub bound: u32,
    pub budget: u64,
    pub precedence: Precedence,
}

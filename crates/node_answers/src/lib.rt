// What the functions over node records answer: their structs, and as definitions which records are nodes' and what each function answers
// (specs/). That the records that pass are just those of nodes, and a record extended that of the node one stop longer, stands in proofs/.
// No function.
#![tactic(auto)]

use sizes::ORDER_PLACES;
use stops::node_record::Record;

// Record i; zeros where it is not inside.
#[repr(C)]
#[derive(Clone, Copy)]
pub struct Found {
    pub inside: bool,
    pub found: Record,
}

// Whether record i is a node's.
#[repr(C)]
#[derive(Clone, Copy)]
pub struct Verdict {
    pub inside: bool,
    pub node: bool,
}

// The stops of record i in flown order, zeros behind.
#[repr(C)]
#[derive(Clone, Copy)]
pub struct Flown {
    pub inside: bool,
    pub stops: [u8; ORDER_PLACES],
}

// The path cost and the bound of record i; zeros unless the number is 0 and the record a node's.
#[repr(C)]
#[derive(Clone, Copy)]
pub struct Figures {
    pub inside: bool,
    pub number: u32,
    pub node: bool,
    pub path: u32,
    pub bound: u32,
}

// Whether a stop and its leg fit on record i, and the record as it then is: with both added where they fit, its bound 0, not yet known;
// as it was where they do not; zeros where it is not inside.
#[repr(C)]
#[derive(Clone, Copy)]
pub struct Extended {
    pub inside: bool,
    pub fits: bool,
    pub after: Record,
}

// Parts 6 and 7 of a step: whether the nodes to keep fit the pool (`fits`), which active records rule 8 strikes out (`strike`), and the pool
// afterwards (`commit`). specs/Code has what the functions compute. They are public for the crate above and not for hosts; what they require,
// that crate meets.
#![tactic(auto)]

pub mod change;
pub mod commit;
pub mod fits;
pub mod strike;

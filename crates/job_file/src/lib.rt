// Job files: `reader::read` and `writer::write` are open to a caller; every other function is for this crate or the crates above, and what it
// requires its callers meet. What `read` answers for every string of bytes, and what `write` does for all contents and every buffer, crate
// `job_format` says (specs/Reader and specs/Writer).
#![tactic(auto)]

mod bytes;
mod layout;
pub mod reader;
mod rewriting;
pub mod writer;

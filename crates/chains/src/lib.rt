// Chains of a lane's records: those with one bucket, by set and last stop, are linked from the last to the first through their size words, and
// the index has the head of each chain. A record that dominates another has its set and its last stop, and so its bucket: rules 2, 4 and 8
// look along one chain. Nothing is unlinked but at a lane's end; a link is a function of the records before it. A lane of so many records that their
// numbers fill a word is not linked, and is walked record by record. The functions are public for the crates above and not for
// hosts; what they require, those crates meet.
#![tactic(auto)]

pub mod join;
pub mod trim;
pub mod walk;

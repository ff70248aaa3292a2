// Node records: a record's six words and the pool's words for a state are document 01's (specs/Records); words are seen as a list of
// records (specs/Code), of which one, or a word of one, is read and written here; `order` reads the stops of an order. The functions are public
// for the crates above and not for hosts; what they require, those crates meet.
#![tactic(auto)]

ghost use Rattle.std.specs.Prelude.{◌≡◌, ◌-◌, ◌≤◌, ◌<◌, length, get_or, set};
ghost use Rattle.stops.specs.Code.{empty_record};
ghost use Rattle.records.specs.Code.{records};

pub mod order;

use sizes::RECORD_WORDS;
use stops::node_record::Record;

pub fn load(w: &[u32], i: usize) -> Record
    requires { i < length (records w.now) }
    ensures { result ≡ get_or (records w.now) i empty_record }
{
    let at = RECORD_WORDS * i;
    Record {
        size: w[at],
        set: w[at + 1],
        path: w[at + 2],
        bound: w[at + 3],
        first: w[at + 4],
        second: w[at + 5],
    }
}

// The slot of a stop among records that stand one for each stop.
pub fn slot(stop: u32) -> usize
    requires { 1 ≤ stop }
    ensures { result ≡ stop - 1 }
{
    (stop - 1) as usize
}

// The size, the set and the bound of record i, each read where it stands.
pub fn size_at(w: &[u32], i: usize) -> u32
    requires { i < length (records w.now) }
    ensures { result ≡ (get_or (records w.now) i empty_record).size }
{
    w[RECORD_WORDS * i]
}

pub fn set_at(w: &[u32], i: usize) -> u32
    requires { i < length (records w.now) }
    ensures { result ≡ (get_or (records w.now) i empty_record).set }
{
    w[RECORD_WORDS * i + 1]
}

pub fn bound_at(w: &[u32], i: usize) -> u32
    requires { i < length (records w.now) }
    ensures { result ≡ (get_or (records w.now) i empty_record).bound }
{
    w[RECORD_WORDS * i + 3]
}

pub fn store(w: &mut [u32], i: usize, x: Record)
    requires { i < length (records w.old) }
    ensures { records w.new ≡ set (records w.old) i x }
{
    let at = RECORD_WORDS * i;
    w[at] = x.size;
    w[at + 1] = x.set;
    w[at + 2] = x.path;
    w[at + 3] = x.bound;
    w[at + 4] = x.first;
    w[at + 5] = x.second;
}

// Walks along a chain.
ghost use Rattle.std.specs.Prelude.{◌≡◌, cond, ◌+◌, ◌-◌, ◌≤◌, ◌<◌, T, length, get_or};
ghost use Rattle.lanes.specs.Sizes.{heads};
ghost use Rattle.lanes.specs.Code.{sized, place_of, lane_of};
ghost use Rattle.stops.specs.Code.{empty_record, rec_dominates};
ghost use Rattle.records.specs.Code.{records, Slotted, Thinned};
ghost use Rattle.chains.specs.Code.{bucket_of, Walkable, is_rival, is_free, Sized};

use lanes::constants::HEADS;
use lanes::{Lane, place, sized_at};
use records::{bound_at, load, set_at, size_at, slot};
use stops::node_record::Record;
use stops::sets::{stops_of, with};

// What spreads sets and last stops over the heads: a stop above every set, the golden ratio of a word, and what the product is divided by, so that
// its upper digits tell.
const STOP_ABOVE_SETS: u64 = 65_536;

const ABOVE_WORD: u64 = 4_294_967_296;

const GOLDEN: u64 = 2_654_435_769;

const SPREAD: u64 = 524_288;

// The bucket of a record that has its size.
pub fn bucket(x: Record) -> usize
    ensures { (result ≡ bucket_of x) × (result < heads) }
{
    let key = (x.set as u64 + STOP_ABOVE_SETS * x.last() as u64) % ABOVE_WORD;
    (key * GOLDEN / SPREAD) as usize % HEADS
}

// Whether record i of w dominates record k of v, which has its size. Sets are compared before anything else is read.
pub fn beats(w: &[u32], i: usize, v: &[u32], k: usize) -> bool
    requires { (i < length (records w.now)) × (k < length (records v.now)) }
    ensures { result ≡ rec_dominates (sized (get_or (records w.now) i empty_record)) (get_or (records v.now) k empty_record) }
{
    if set_at(w, i) != set_at(v, k) {
        return false;
    }
    sized_at(w, i).dominates(load(v, k))
}

// Whether record i of w has a bound up to limit and dominates record k of v.
fn rival(w: &[u32], i: usize, v: &[u32], k: usize, limit: u32) -> bool
    requires { (i < length (records w.now)) × (k < length (records v.now)) }
    ensures { result ≡ is_rival limit (get_or (records v.now) k empty_record) (sized (get_or (records w.now) i empty_record)) }
{
    if beats(w, i, v, k) {
        return bound_at(w, i) <= limit;
    }
    false
}

// Where the walk for a record starts: the head of its chain, or the lane's last record.
pub fn top(p: Lane, index: &[u32], x: Record) -> usize
    requires { T p.linked → p.heads + heads ≤ length index.now }
    ensures { result ≡ cond p.linked (get_or index.now (p.heads + bucket_of x) 0) p.count }
{
    if p.linked {
        return index[p.heads + bucket(x)] as usize;
    }
    p.count
}

// Where it goes on from record c: along the link, or to the record before it.
pub fn after(w: &[u32], p: Lane, c: usize) -> usize
    requires { (1 ≤ c) × ((0 < p.end → c ≤ p.end) × (place_of p.end c < length (records w.now))) }
    ensures { result ≡ cond p.linked (get_or (records w.now) (place_of p.end c) empty_record).size (c - 1) }
{
    if p.linked {
        return size_at(w, place(p.end, c)) as usize;
    }
    c - 1
}

// Rules 2 and 4 on the children by the stops of `alive`: those that no record of a lane with a bound up to limit dominates.
pub fn unrivalled(kids: &[u32], alive: u32, w: &[u32], p: Lane, index: &[u32], limit: u32) -> u32
    requires { (Slotted alive (records kids.now) × Sized alive (records kids.now)) × Walkable (records w.now) p index.now }
    ensures { Thinned (is_free limit (lane_of (records w.now) p.end p.count)) (records kids.now) alive result }
{
    let mut kept = 0;
    'child: for s in stops_of(alive) {
        let k = slot(s);
        let mut c = top(p, index, load(kids, k));
        while c != 0 {
            if rival(w, place(p.end, c), kids, k, limit) {
                continue 'child;
            }
            c = after(w, p, c);
        }
        kept = with(kept, s);
    }
    kept
}

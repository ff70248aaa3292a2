// Records that are gone taken off a lane's end.
ghost use Rattle.std.specs.Prelude.{◌≡◌, cond, false, ℕ, ◌+◌, ◌≤◌, ◌<◌, T, length, get_or, set};
ghost use Rattle.stops.specs.Code.{empty_record};
ghost use Rattle.records.specs.Code.{records};
ghost use Rattle.lanes.specs.Sizes.{heads};
ghost use Rattle.lanes.specs.Code.{sized, is_live};
ghost use Rattle.chains.specs.Code.{bucket_of, counting, Walkable, Only};

use crate::walk::bucket;
use lanes::{Lane, live, sized_at};
use records::size_at;

// Record i leaves a lane whose last one it is: what it is linked to is the head of its chain again.
fn unlink(w: &[u32], i: usize, p: Lane, index: &mut [u32])
    requires { (i < length (records w.now)) × (T p.linked → p.heads + heads ≤ length index.old) }
    ensures { index.new ≡ cond p.linked (set index.old (p.heads + bucket_of (sized (get_or (records w.now) i empty_record))) (get_or (records w.now) i empty_record).size) index.old }
{
    if p.linked {
        let h = p.heads + bucket(sized_at(w, i));
        index[h] = size_at(w, i);
    }
}

// Takes the records that are gone off the end of the lane at the pool's front, and says how many are left.
pub fn trim(w: &[u32], p: Lane, index: &mut [u32]) -> usize
    requires { (p.end ≡ 0) × Walkable (records w.now) p index.old }
    ensures { (result ≤ p.count) × (Walkable (records w.now) (counting p result) index.new × (Only p.heads index.old index.new × ((j : ℕ) → result ≤ j → j < p.count → is_live (get_or (records w.now) j empty_record) ≡ false))) }
{
    for i in (0..p.count).rev() {
        if live(w, i) {
            return i + 1;
        }
        unlink(w, i, p, index);
    }
    0
}

// The active lane squeezed: records that are gone, or above a limit, are left out, and the others close up; and sizes put back.
ghost use Rattle.std.specs.Prelude.{◌≡◌, cond, ◌++◌, map, ◌+◌, ◌≤◌, ◌<◌, length, get_or, set, take, drop};
ghost use Rattle.std.proofs.Math.Seq.{slice};
ghost use Rattle.stops.specs.Code.{empty_record};
ghost use Rattle.records.specs.Code.{records, Sifted};
ghost use Rattle.lanes.specs.Code.{sized, is_within};

use crate::sized_at;
use records::{bound_at, load, store};

// Moves record i to `next` if its bound is at most limit, and says where the one after it may go.
fn kept(w: &mut [u32], i: usize, next: usize, limit: u32) -> usize
    requires { (next ≤ i) × (i < length (records w.old)) }
    ensures { (result ≡ cond (is_within limit (get_or (records w.old) i empty_record)) (next + 1) next) × (records w.new ≡ cond (is_within limit (get_or (records w.old) i empty_record)) (set (records w.old) next (get_or (records w.old) i empty_record)) (records w.old)) }
{
    if limit < bound_at(w, i) {
        return next;
    }
    let x = load(w, i);
    store(w, next, x);
    next + 1
}

// Keeps those of the first `used` records whose bounds are at most limit, in their order, at the front, and says how many they are.
pub fn squeeze(w: &mut [u32], used: usize, limit: u32) -> usize
    requires { used ≤ length (records w.old) }
    ensures { Sifted (is_within limit) (records w.old) 0 used 0 (records w.new) result }
{
    let mut next = 0;
    for i in 0..used {
        next = kept(w, i, next, limit);
    }
    next
}

// Puts the sizes of the records from `from` to `to` back.
pub fn resize(w: &mut [u32], from: usize, to: usize)
    requires { (from ≤ to) × (to ≤ length (records w.old)) }
    ensures { records w.new ≡ take from (records w.old) ++ (map sized (slice from to (records w.old)) ++ drop to (records w.old)) }
{
    for i in from..to {
        let x = sized_at(w, i);
        store(w, i, x);
    }
}

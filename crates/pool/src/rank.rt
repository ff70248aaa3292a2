// The minima of a layout.
ghost use Rattle.std.specs.Prelude.{◌*◌, ◌^◌, ◌≤◌, ◌<◌, T, length};
ghost use Rattle.records.specs.Code.{records};
ghost use Rattle.lanes.specs.Sizes.{blocks};
ghost use Rattle.blocks.specs.Code.{Same};
ghost use Rattle.pool.specs.Code.{Ranked};

use blocks::keep::rebuild;
use lanes::layout::Layout;

// The minima made anew, if they are kept.
pub fn reranked(w: &[u32], p: Layout, index: &mut [u32])
    requires { T p.ranked → (blocks ≤ length index.old) × ((p.used ≤ length (records w.now)) × ((p.used ≤ blocks * 2 ^ p.shift) × (blocks * 2 ^ p.shift < 2 ^ 62))) }
    ensures { (T p.ranked → Ranked (records w.now) p index.new) × Same index.old index.new }
{
    if p.ranked {
        rebuild(w, p.used, p.shift, index);
    }
}

// How the pool's records stand while a call works.
ghost use Rattle.std.specs.Prelude.{◌≡◌};
ghost use Rattle.lanes.specs.Layouts.{active_lane, far_lane};

use crate::Lane;
use crate::constants::{ACTIVE_HEADS, FAR_HEADS};

// The pool has `capacity` records. Its first `used` places have the active records, gone ones among them, of which `active` are nodes; its last `far`
// places have the branched ones. The least bounds of blocks of 2^shift places are kept where the layout is ranked, and the chains of a lane where that
// lane is linked.
#[derive(Clone, Copy)]
pub struct Layout {
    pub capacity: usize,
    pub used: usize,
    pub active: usize,
    pub far: usize,
    pub shift: u32,
    pub ranked: bool,
    pub linked: bool,
    pub far_linked: bool,
}

pub fn active_lane(p: Layout) -> Lane
    ensures { result ≡ active_lane p }
{
    Lane {
        end: 0,
        count: p.used,
        heads: ACTIVE_HEADS,
        linked: p.linked,
    }
}

pub fn far_lane(p: Layout) -> Lane
    ensures { result ≡ far_lane p }
{
    Lane {
        end: p.capacity,
        count: p.far,
        heads: FAR_HEADS,
        linked: p.far_linked,
    }
}

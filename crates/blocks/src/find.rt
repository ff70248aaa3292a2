// The least bound, and the first and the last record with a bound up to a limit.
ghost use Rattle.std.specs.Prelude.{true, false, List, ℕ, ◌*◌, ◌/◌, ◌^◌, ◌≤◌, ◌<◌, length};
ghost use Rattle.stops.specs.declared.node_record.Record.{Record};
ghost use Rattle.records.specs.Code.{records};
ghost use Rattle.lanes.specs.Sizes.{blocks, gone};
ghost use Rattle.blocks.specs.Code.{Least, Blocked, Foremost, bound_at};

use lanes::constants::GONE;
use records::bound_at;

// A number of blocks that holds the first `used` places, and no more than there are.
pub fn blocks_of(used: usize, shift: u32) -> usize
    requires { (1 ≤ used) × (blocks * 2 ^ shift < 2 ^ 62) }
    ensures { ((i : ℕ) → i < used → i / 2 ^ shift < result) × (used ≤ blocks * 2 ^ shift → result ≤ blocks) }
{
    ((used - 1) >> shift) + 1
}

// The least bound among the first `used` records.
pub fn least(used: usize, shift: u32, index: &[u32]) -> u32
    requires { (1 ≤ used) × ((used ≤ blocks * 2 ^ shift) × ((blocks * 2 ^ shift < 2 ^ 62) × (blocks ≤ length index.now))) }
    ensures { (recs : List Record) → Blocked recs used (2 ^ shift) index.now → Least (λ (i : ℕ). i < used) (bound_at recs) result }
{
    let mut low = GONE;
    for bound in &index[..blocks_of(used, shift)] {
        low = low.min(*bound);
    }
    low
}

// The first record from a place on and before another with a bound up to a limit, of which there is one.
fn first_from(w: &[u32], from: usize, to: usize, limit: u32) -> usize
    requires { (to ≤ length (records w.now)) × ((i : ℕ) × ((from ≤ i) × ((i < to) × (bound_at (records w.now) i ≤ limit)))) }
    ensures { (result < to) × ((bound_at (records w.now) result ≤ limit) × ((j : ℕ) → from ≤ j → j < result → limit < bound_at (records w.now) j)) }
{
    for i in from..to {
        if bound_at(w, i) <= limit {
            return i;
        }
    }
    unreachable!()
}

// The first of the first `used` records with a bound up to a limit, of which there is one: the first in the first block that has one.
pub fn earliest(w: &[u32], used: usize, shift: u32, index: &[u32], limit: u32) -> usize
    requires { Blocked (records w.now) used (2 ^ shift) index.now × ((blocks * 2 ^ shift < 2 ^ 62) × ((limit < gone) × ((i : ℕ) × ((i < used) × (bound_at (records w.now) i ≤ limit))))) }
    ensures { Foremost false (records w.now) used limit result }
{
    let k = index.iter().position(|low| *low <= limit).unwrap();
    first_from(w, k << shift, used, limit)
}

// The last record before a place with a bound up to a limit, of which there is one.
pub fn last_before(w: &[u32], to: usize, limit: u32) -> usize
    requires { (to ≤ length (records w.now)) × ((i : ℕ) × ((i < to) × (bound_at (records w.now) i ≤ limit))) }
    ensures { (result < to) × ((bound_at (records w.now) result ≤ limit) × ((j : ℕ) → result < j → j < to → limit < bound_at (records w.now) j)) }
{
    for i in (0..to).rev() {
        if bound_at(w, i) <= limit {
            return i;
        }
    }
    unreachable!()
}

// The last of the first `used` records with a bound up to a limit, of which there is one: the last in the last block that has one.
pub fn latest(w: &[u32], used: usize, shift: u32, index: &[u32], limit: u32) -> usize
    requires { Blocked (records w.now) used (2 ^ shift) index.now × ((blocks * 2 ^ shift < 2 ^ 62) × ((limit < gone) × ((i : ℕ) × ((i < used) × (bound_at (records w.now) i ≤ limit))))) }
    ensures { Foremost true (records w.now) used limit result }
{
    let k = index[..blocks_of(used, shift)]
        .iter()
        .rposition(|low| *low <= limit)
        .unwrap();
    last_before(w, ((k + 1) << shift).min(used), limit)
}

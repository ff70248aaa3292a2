// U and its order, while a run goes on.
ghost use Rattle.std.specs.Prelude.{◌≡◌, [], ◌∷◌, ◌⊎◌, ◌<◌, length, get_or};
ghost use Rattle.std.proofs.Math.Option.{map};
ghost use Rattle.lists.specs.Lists.{In};
ghost use Rattle.stops.specs.Code.{empty_record};
ghost use Rattle.stops.specs.declared.node_record.Record.{Record};
ghost use Rattle.orders.specs.Orders.{Order};
ghost use Rattle.records.specs.Code.{records, slots, Slotted};
ghost use Rattle.answer.specs.Answer.{given};
ghost use Rattle.children.specs.Code.{IsBest, Learnt, encode_of, Rows};
ghost use Rattle.children.specs.declared.setting.Setting.{Setting};

use crate::setting::Setting;
use records::{bound_at, load, slot};
use sizes::{ABOVE_EVERY_COST, PLACES};
use stops::cost::order_cost;
use stops::node_record::Record;
use stops::order_words::words_before;
use stops::sets::stops_of;

// The cost of the best order known, and its two words; `ABOVE_EVERY_COST` and zeros if none is known.
#[derive(Clone, Copy)]
pub struct Best {
    pub upper: u32,
    pub first: u32,
    pub second: u32,
}

// The best order known after the complete child in a slot: the child's, if it costs less than U, or the same and is the smaller (request A.8).
// While none is known its words are zeros, and no order is smaller than these.
fn better(best: Best, kids: &[u32], k: usize) -> Best
    requires { k < length (records kids.now) }
    ensures { (d : Setting) → (get_or (records kids.now) k empty_record).size ≡ d.n → Learnt d best (get_or (records kids.now) k empty_record ∷ []) result }
{
    if best.upper < bound_at(kids, k) {
        return best;
    }
    let x = load(kids, k);
    if x.bound < best.upper || words_before(x.first, x.second, best.first, best.second) {
        Best {
            upper: x.bound,
            first: x.first,
            second: x.second,
        }
    } else {
        best
    }
}

// Part 2 of a step, over the children by the stops of `born`, which are all of one size.
pub fn learn(setting: Setting, kids: &[u32], born: u32, size: u32, best: Best) -> Best
    requires { Slotted born (records kids.now) × ((x : Record) → In x (slots born (records kids.now)) → x.size ≡ size) }
    ensures { Learnt setting best (slots born (records kids.now)) result }
{
    if size != setting.n {
        return best;
    }
    let mut known = best;
    for s in stops_of(born) {
        known = better(known, kids, slot(s));
    }
    known
}

// The starting order as the best known: its cost and words, or none if it is empty.
pub fn started(setting: Setting, t: [[u32; PLACES]; PLACES], start: &[u8]) -> Best
    requires { Rows setting t × ((start.now ≡ []) ⊎ Order setting.n start.now) }
    ensures { IsBest result (map (encode_of setting t) (given start.now)) }
{
    if start.is_empty() {
        return Best {
            upper: ABOVE_EVERY_COST,
            first: 0,
            second: 0,
        };
    }
    // Only the words of the order are taken from this record: it gets no legs.
    let mut x = Record::empty();
    for s in start {
        x = x.extended(u32::from(*s), 0);
    }
    Best {
        upper: order_cost(&t, start),
        first: x.first,
        second: x.second,
    }
}

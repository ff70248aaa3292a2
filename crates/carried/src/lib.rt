// The bounds of a node's children, carried along from the node (request A.7). A stop that a child leaves can be reached from the child's own stop or
// from another one left: together the other stops that the node leaves, whichever child it is. So the cheapest of those legs is one number a
// stop, found once for the family, and with it the cheapest leg home. specs/Carried has this in the request's words, and proofs/ that it is document
// 01's close bound. The functions are public for the crates above and not for hosts; what they require, those crates meet.
#![tactic(auto)]

ghost use Rattle.std.specs.Prelude.{◌≡◌, cond, ℕ, ◌-◌, ◌^◌, ◌≤◌, ◌<◌, eqb, length, get_or, replicate};
ghost use Rattle.sizes.specs.Sizes.{most_stops, places, above_every_cost};
ghost use Rattle.lists.specs.Lists.{In};
ghost use Rattle.stops.specs.Legs.{legs};
ghost use Rattle.stops.specs.Code.{stops_in, last_stop, Cheap};
ghost use Rattle.carried.specs.Carried.{among};
ghost use Rattle.carried.specs.Code.{lessened, Entered, noted, ahead_of, family_of, Several, Shares, Gives, Adds};

use sizes::{ABOVE_EVERY_COST, PLACES};
use stops::bound::is_close;
use stops::legs::leg;
use stops::node_record::Record;
use stops::sets::{later, next, stops_of};
use stops::table::Rows;

// A row's cells join four at a time: where the second, the third and the fourth four begin, and the least sets that have a stop there.
const SECOND_FOUR: usize = 5;

const THIRD_FOUR: usize = 9;

const FOURTH_FOUR: usize = 13;

const REACHES_SECOND: u32 = 16;

const REACHES_THIRD: u32 = 256;

const REACHES_FOURTH: u32 = 4_096;

// Of the legs home from some stops the cheapest, the stop that gives it, and the cheapest of the others.
#[derive(Clone, Copy)]
pub struct Homes {
    pub cheapest: u32,
    pub giver: u32,
    pub other: u32,
}

// What the children of a node share. Where the bound is close, total is the sum, over the stops that the node leaves, of the cheapest leg into each
// from another one: the node's sum with every correction made. Where one stop is left it is the leg home from it, and else, under plain, 0.
#[derive(Clone, Copy)]
pub struct Family {
    pub total: u32,
    pub homes: Homes,
}

// What each child of a node adds to it: the legs from the node's last place, each at the place of its stop, and what the bound adds.
#[derive(Clone, Copy)]
pub struct Costs {
    pub legs: [u32; PLACES],
    pub family: Family,
}

// The legs home with that of a further stop.
fn noted(x: Homes, s: u32, home: u32) -> Homes
    ensures { result ≡ noted x s home }
{
    if home < x.cheapest {
        return Homes {
            cheapest: home,
            giver: s,
            other: x.cheapest,
        };
    }
    Homes {
        cheapest: x.cheapest,
        giver: x.giver,
        other: x.other.min(home),
    }
}

// A leg from r to s, above every cost from a stop to itself.
fn from_another(leg: u32, r: usize, s: usize) -> u32
    ensures { result ≡ cond (eqb s r) above_every_cost leg }
{
    if s == r { ABOVE_EVERY_COST } else { leg }
}

// The cells of the row of stop r from one place to before another join: into has the cheapest leg into each stop so far. All of them are gone through,
// whatever stops are left, so that several are done at a time.
fn cells_join(row: [u32; PLACES], r: usize, from: usize, to: usize, into: &mut [u32])
    requires { (from ≤ to) × ((to ≤ places) × (length into.old ≡ places)) }
    ensures { Entered (lessened row r into.old) into.old into.new from to }
{
    for s in from..to {
        into[s] = into[s].min(from_another(row[s], r, s));
    }
}

// The row of stop r joins, for the stops of rest: up to the last four that has one of them, so that a day of few stops goes without the others.
fn row_joins(row: [u32; PLACES], r: usize, rest: u32, into: &mut [u32])
    requires { (rest < 2 ^ most_stops) × (length into.old ≡ places) }
    ensures { ((s : ℕ) → In s (stops_in rest) → get_or into.new s 0 ≡ lessened row r into.old s) × (length into.new ≡ places) }
{
    cells_join(row, r, 1, SECOND_FOUR, into);
    if rest < REACHES_SECOND {
        return;
    }
    cells_join(row, r, SECOND_FOUR, THIRD_FOUR, into);
    if rest < REACHES_THIRD {
        return;
    }
    cells_join(row, r, THIRD_FOUR, FOURTH_FOUR, into);
    if rest < REACHES_FOURTH {
        return;
    }
    cells_join(row, r, FOURTH_FOUR, PLACES, into);
}

// Puts above every cost wherever a leg is to stand.
fn cleared(into: &mut [u32])
    requires { length into.old ≡ places }
    ensures { Entered (λ s. above_every_cost) into.old into.new 1 places }
{
    into[1..].fill(ABOVE_EVERY_COST);
}

// The cheapest leg into each stop of rest from another one of them, a row at a time.
fn least_into(t: &Rows, rest: u32, into: &mut [u32])
    requires { Several rest × (Cheap t.now × (length into.old ≡ places)) }
    ensures { ((s : ℕ) → In s (stops_in rest) → get_or into.new s 0 ≡ among (legs t.now) (stops_in rest) s) × (length into.new ≡ places) }
{
    cleared(into);
    for r in stops_of(rest) {
        let r = r as usize;
        row_joins(t[r], r, rest, into);
    }
}

// What the children by the stops of rest share where the bound is close. Each stop's part of the total is written to its place.
fn shared(t: &Rows, rest: u32, into: &mut [u32]) -> Family
    requires { Several rest × (Cheap t.now × (length into.old ≡ places)) }
    ensures { Shares t.now rest result into.new }
{
    least_into(t, rest, into);
    let mut total = 0;
    let mut homes = Homes {
        cheapest: ABOVE_EVERY_COST,
        giver: 0,
        other: ABOVE_EVERY_COST,
    };
    for s in stops_of(rest) {
        total += into[s as usize];
        homes = noted(homes, s, leg(t, s, 0));
    }
    Family { total, homes }
}

// A family of which only the total counts.
fn only_total(total: u32) -> Family
    ensures { result ≡ family_of total }
{
    Family {
        total,
        homes: Homes {
            cheapest: 0,
            giver: 0,
            other: 0,
        },
    }
}

// What the children by the stops of rest share, by the bound. A complete child, which is the only one, adds its leg home, whichever the bound is; else a
// plain bound adds nothing.
fn family_by(t: &Rows, bound: u32, rest: u32, into: &mut [u32]) -> Family
    requires { (rest < 2 ^ most_stops) × (Cheap t.now × (into.old ≡ replicate places 0)) }
    ensures { Gives t.now bound rest result into.new }
{
    if rest == 0 {
        return only_total(0);
    }
    if later(rest) == 0 {
        return only_total(leg(t, next(rest), 0));
    }
    if is_close(bound) {
        return shared(t, rest, into);
    }
    only_total(0)
}

// What the bound adds to the path cost of the child by s, whose part of the total is own: the total but for that part, and the cheapest leg home, or the
// cheapest of the others if s gives it.
pub fn added(family: Family, own: u32, s: u32) -> u32
    requires { (own ≤ family.total) × (ahead_of family own s < 2 ^ 32) }
    ensures { result ≡ ahead_of family own s }
{
    let homes = family.homes;
    if s == homes.giver {
        return family.total - own + homes.other;
    }
    family.total - own + homes.cheapest
}

// What each child of b adds to it; into, zeros at first, gets each stop's part of the total.
pub fn child_costs(n: u32, bound: u32, t: Rows, b: Record, into: &mut [u32]) -> Costs
    requires { (n ≤ most_stops) × ((b.set < 2 ^ n) × (Cheap t × (into.old ≡ replicate places 0))) }
    ensures { Adds t bound (last_stop b) (2 ^ n - 1 - b.set) result into.new }
{
    let place = b.last();
    let family = family_by(&t, bound, (1u32 << n) - 1 - b.set, into);
    Costs {
        legs: t[place as usize],
        family,
    }
}

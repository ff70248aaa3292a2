// Sets of stops, each a word: bit s-1 is stop s's.
ghost use Rattle.std.specs.Prelude.{◌≡◌, cond, ℕ, ◌+◌, ◌-◌, ◌^◌, ◌≤◌, ◌<◌, length, MatchOption};
ghost use Rattle.std.specs.Iterator.{at_most};
ghost use Rattle.sizes.specs.Sizes.{most_stops};
ghost use Rattle.lists.specs.Lists.{In};
ghost use Rattle.stops.specs.Code.{stops_in, First};

// The next stop of a set: its lowest.
pub fn next(set: u32) -> u32
    requires { (0 < set) × (set < 2 ^ most_stops) }
    ensures { First set result }
{
    u32::trailing_zeros(set) + 1
}

// The stops of a set behind its next one.
pub fn later(set: u32) -> u32
    requires { (0 < set) × (set < 2 ^ most_stops) }
    ensures { (s : ℕ) → First set s → result ≡ set - 2 ^ (s - 1) }
{
    set & (set - 1)
}

// The set without a stop of it.
pub fn without(set: u32, stop: u32) -> u32
    requires { (set < 2 ^ most_stops) × In stop (stops_in set) }
    ensures { result ≡ set - 2 ^ (stop - 1) }
{
    set - (1u32 << (stop - 1))
}

// The set with a stop that it lacked.
pub fn with(set: u32, stop: u32) -> u32
    requires { (set < 2 ^ most_stops) × (((1 ≤ stop) × (stop ≤ most_stops)) × (In stop (stops_in set) → ⊥)) }
    ensures { result ≡ set + 2 ^ (stop - 1) }
{
    set + (1u32 << (stop - 1))
}

// The set with a stop that it lacked where a test holds. Nothing is branched on, since what the tests of a family say is hard to foretell.
pub fn with_if(test: bool, set: u32, stop: u32) -> u32
    requires { (set < 2 ^ most_stops) × (((1 ≤ stop) × (stop ≤ most_stops)) × (In stop (stops_in set) → ⊥)) }
    ensures { result ≡ cond test (set + 2 ^ (stop - 1)) set }
{
    set + ((test as u32) << (stop - 1))
}

// The stops of a set, one after another, the lowest first.
#[derive(Clone, Copy)]
pub struct Stops {
    left: u32,
    ghost few: { left < 2 ^ most_stops },
}

// The stops of a set, to be gone through.
pub fn stops_of(set: u32) -> Stops
    requires { set < 2 ^ most_stops }
    ensures { result.left ≡ set }
{
    Stops { left: set }
}

impl Iterator for Stops {
    type Item = u32;

    ghost next_gives = { λ old r new. MatchOption r (old.left ≡ 0) (λ s. First old.left s × (new.left ≡ old.left - 2 ^ (s - 1))) };

    ghost remaining = { λ stops. at_most stops.left };

    #[tactic(auto, using(crate::proofs::SetLoops::behind_small))]
    fn next(&mut self) -> Option<u32> {
        let set = self.left;
        if set == 0 {
            return None;
        }
        let first = next(set);
        self.left = later(set);
        Some(first)
    }
}

// How many stops a set has.
pub fn count(set: u32) -> usize
    requires { set < 2 ^ most_stops }
    ensures { result ≡ length (stops_in set) }
{
    u32::count_ones(set) as usize
}

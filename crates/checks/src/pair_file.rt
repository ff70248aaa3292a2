// Check 11, whether a pair file's bytes are pairs; and the part of check 5 that looks at them (request A.6).
ghost use Rattle.std.specs.Prelude.{◌≡◌, false, not, ◌≤◌, eqb};
ghost use Rattle.sizes.specs.Sizes.{most_stops};
ghost use Rattle.lists.specs.Lists.{all};
ghost use Rattle.orders.specs.Orders.{count};
ghost use Rattle.orders.specs.Pairs.{pairs_of, respects};
ghost use Rattle.answer.specs.Checks.{cause₅, cause₁₁};

use crate::order::{only_stops, times};
use pairs::{precedence_of, respected};
use sizes::MOST_PAIR_BYTES;

// Whether no byte stands twice.
fn none_twice(pairs: &[u8]) -> bool
    ensures { result ≡ all (λ s. eqb (count s pairs.now) 1) pairs.now }
{
    pairs.iter().all(|s| times(pairs, u32::from(*s)) == 1)
}

// Whether cause 11 applies.
pub fn wrong_pairs(n: u32, pairs: &[u8]) -> bool
    requires { n ≤ most_stops }
    ensures { result ≡ cause₁₁ n pairs.now }
{
    pairs.len() % 2 == 1
        || MOST_PAIR_BYTES < pairs.len()
        || !only_stops(n, pairs)
        || !none_twice(pairs)
}

// Whether a starting order goes against pairs that pass.
pub fn against(n: u32, start: &[u8], pairs: &[u8]) -> bool
    requires { (n ≤ most_stops) × ((cause₅ n start.now ≡ false) × (cause₁₁ n pairs.now ≡ false)) }
    ensures { result ≡ not (respects (pairs_of pairs.now) start.now) }
{
    !respected(precedence_of(pairs), n, start)
}

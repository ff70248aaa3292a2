// The order of a node in its two words: a digit for each stop, in the second word once the first is full.
ghost use Rattle.std.specs.Prelude.{◌≡◌, map, ◌≤◌, ◌<◌, min};
ghost use Rattle.sizes.specs.Sizes.{most_stops, order_places, stop_base};
ghost use Rattle.lists.specs.Lists.{from, padded};
ghost use Rattle.records.specs.Records.{stop_at};

use sizes::{MOST_STOPS, ORDER_PLACES, STOP_BASE, STOP_BITS, WORD_STOPS};

// The stop at place k.
pub fn stop_at(first: u32, second: u32, k: u32) -> u32
    requires { k < most_stops }
    ensures { (result ≡ stop_at first second k) × (result ≤ stop_base) }
{
    if k < WORD_STOPS {
        return (first >> (STOP_BITS * k)) % STOP_BASE + 1;
    }
    (second >> (STOP_BITS * (k - WORD_STOPS))) % STOP_BASE + 1
}

// How many places of an order so many stops take: no more than there are.
pub fn places(count: u32) -> u32
    ensures { result ≡ min count most_stops }
{
    count.min(MOST_STOPS)
}

// The stops at the first places, so many as `count` says, and zeros behind.
pub fn stops_of(count: u32, first: u32, second: u32) -> [u8; ORDER_PLACES]
    requires { count ≤ most_stops }
    ensures { result ≡ padded order_places (map (stop_at first second) (from 0 count)) }
{
    let mut stops = [0u8; ORDER_PLACES];
    for k in 0..count {
        stops[k as usize] = stop_at(first, second, k) as u8;
    }
    stops
}

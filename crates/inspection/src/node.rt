// Whether words are those of a node's record. The functions are this crate's own; what `holds` requires, its other functions meet.
ghost use Rattle.std.specs.Prelude.{◌≡◌, ◌≤◌};
ghost use Rattle.sizes.specs.Sizes.{most_stops};
ghost use Rattle.orders.specs.Orders.{flown};
ghost use Rattle.stops.specs.Code.{stops_in};
ghost use Rattle.node_answers.specs.Nodes.{is_node};
ghost use Rattle.inspection.specs.Code.{of_four};

use records::order::stop_at;
use sizes::MOST_STOPS;
use stops::node_record::Record;

// Whether a set holds stop s.
pub fn holds(set: u32, s: u32) -> bool
    requires { (1 ≤ s) × (s ≤ most_stops) }
    ensures { result ≡ flown (stops_in set) s }
{
    (set >> (s - 1)) % 2 == 1
}

// Whether four words are those of a node's record, for n stops: the node is put together again, stop by stop.
pub fn is_record(size: u32, set: u32, first: u32, second: u32, n: u32) -> bool
    ensures { result ≡ is_node n (of_four size set first second) }
{
    if n == 0 || MOST_STOPS < n || n < size {
        return false;
    }
    let mut x = Record::empty();
    for k in 0..size {
        let s = stop_at(first, second, k);
        if n < s || holds(x.set, s) {
            return false;
        }
        x = x.extended(s, 0);
    }
    set == x.set && first == x.first && second == x.second
}

// The order of a record: its stops, four bits each.
ghost use Rattle.std.specs.Prelude.{◌≡◌};
ghost use Rattle.inspection.specs.Code.{of_four};
ghost use Rattle.node_answers.specs.Answers.{flown_at};

use node_answers::Flown;
use records::order::{places, stops_of};

// The stops in flown order, zeros behind.
pub fn flown_of(inside: bool, size: u32, first: u32, second: u32) -> Flown
    ensures { result ≡ flown_at inside (of_four size 0 first second) }
{
    let stops = stops_of(places(size), first, second);
    Flown { inside, stops }
}

// The verdict on a record.
ghost use Rattle.std.specs.Prelude.{◌≡◌};
ghost use Rattle.node_answers.specs.Answers.{verdict};
ghost use Rattle.inspection.specs.Code.{of_four};

use crate::node::is_record;
use node_answers::Verdict;

// Whether a record is inside, and a node's; none that is not inside is a node.
pub fn verdict_of(inside: bool, size: u32, set: u32, first: u32, second: u32, n: u32) -> Verdict
    ensures { result ≡ verdict inside (of_four size set first second) n }
{
    let node = inside && is_record(size, set, first, second, n);
    Verdict { inside, node }
}

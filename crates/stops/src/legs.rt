// A leg in the rows of a table. The function is for this crate and for `carried`, which reckons with legs too: the crates above use
// `table::further`, `cost::order_cost` and the bounds.
ghost use Rattle.std.specs.Prelude.{◌≡◌, ◌≤◌};
ghost use Rattle.sizes.specs.Sizes.{most_stops};
ghost use Rattle.stops.specs.Legs.{row_leg};

use crate::table::Rows;

// What flying from one place to another costs, as the rows have it.
pub fn leg(t: &Rows, from: u32, to: u32) -> u32
    requires { (from ≤ most_stops) × (to ≤ most_stops) }
    ensures { result ≡ row_leg t.now from to }
{
    t[from as usize][to as usize]
}

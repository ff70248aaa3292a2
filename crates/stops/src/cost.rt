// The cost of an order.
ghost use Rattle.std.specs.Prelude.{◌≡◌};
ghost use Rattle.stops.specs.Legs.{legs, cost};
ghost use Rattle.stops.specs.Code.{Reckonable};

use crate::legs::leg;
use crate::table::Rows;

// The cost of an order: its legs from home on, and the leg home.
pub fn order_cost(t: &Rows, x: &[u8]) -> u32
    requires { Reckonable t.now x.now }
    ensures { result ≡ cost (legs t.now) x.now }
{
    let mut sum = 0;
    let mut place = 0;
    for s in x {
        let s = u32::from(*s);
        sum += leg(t, place, s);
        place = s;
    }
    sum + leg(t, place, 0)
}

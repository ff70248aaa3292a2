// The report of a call, by how it ended. These functions are this crate's own, and what they require `search` and `plan` meet.
ghost use Rattle.std.specs.Prelude.{◌≡◌, ◌≤◌};
ghost use Rattle.sizes.specs.Sizes.{most_stops};
ghost use Rattle.answer.specs.Call.{refusal};
ghost use Rattle.answer.specs.Refusals.{number};
ghost use Rattle.planner.specs.Code.{reported, finished_by, full_by, stopped_by};

use answer::Report;
use answer::refusal::Refusal;
use records::order::stops_of;
use sizes::{ABOVE_EVERY_COST, ORDER_PLACES};
use step::Run;

// A refusal: its number, and zeros.
pub fn refused(cause: Refusal) -> Report
    ensures { result ≡ refusal (number cause) }
{
    Report {
        number: cause.into(),
        mark: 0,
        cost: 0,
        floor: 0,
        order: [0u8; ORDER_PLACES],
        branched: 0,
        generated: 0,
        eliminated: 0,
        active: 0,
        most: 0,
    }
}

// A report with these numbers and the counts of a run that has ended.
fn ended(number: u32, mark: u32, cost: u32, floor: u32, order: [u8; ORDER_PLACES], r: Run) -> Report
    ensures { result ≡ reported number mark cost floor order r }
{
    Report {
        number,
        mark,
        cost,
        floor,
        order,
        branched: r.branched,
        generated: r.generated,
        eliminated: r.eliminated,
        active: r.layout.active as u64,
        most: r.most,
    }
}

// The report of a finished run: U and its order.
pub fn finished(n: u32, r: Run) -> Report
    requires { n ≤ most_stops }
    ensures { result ≡ finished_by n r }
{
    let best = r.best;
    let order = stops_of(n, best.first, best.second);
    ended(0, 0, best.upper, 0, order, r)
}

// The report of a run that the budget stopped (request A.3): mark 1, the floor, and the best order known with its cost, or zeros while none is known.
pub fn stopped(n: u32, floor: u32, r: Run) -> Report
    requires { n ≤ most_stops }
    ensures { result ≡ stopped_by n floor r }
{
    let best = r.best;
    if best.upper == ABOVE_EVERY_COST {
        return ended(0, 1, 0, floor, [0u8; ORDER_PLACES], r);
    }
    let order = stops_of(n, best.first, best.second);
    ended(0, 1, best.upper, floor, order, r)
}

// The report of a run that filled the pool: number 7, and zeros beside the counts.
pub fn full(r: Run) -> Report
    ensures { result ≡ full_by r }
{
    ended(7, 0, 0, 0, [0u8; ORDER_PLACES], r)
}

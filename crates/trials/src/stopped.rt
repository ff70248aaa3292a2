// What a report of a run within a budget is held against: the best order, the table, and the report of the whole run.
use crate::judge::{Ending, Table, adds_up, judged, priced, zeros};
use answer::Report;

// The mark of a report whose run the budget stopped.
const STOPPED: u32 = 1;

// One choice in so many has just enough; the number has no divisor in common with those of selections and rules.
const ENOUGH_IN: u32 = 7;

// The budget of a job's second plan: for one choice in so many all branchings of a run that finished, else half of them, which are fewer.
pub fn budget_of(whole: Report, choice: u32) -> u64 {
    if choice % ENOUGH_IN == 0 && whole.number == 0 {
        whole.branched
    } else {
        whole.branched / 2
    }
}

// What a stopped report shows is right if it is an order with its cost, which is not below the least, or zeros alone.
fn shown(t: Table, r: Report) -> Option<Ending> {
    let order = r.order;
    if order[0] != 0 {
        return priced(t, r.cost, &order).then_some(Ending::WithOrder);
    }
    (r.cost == 0 && zeros(&order, 0)).then_some(Ending::WithNone)
}

// A stopped report is right if it has the mark, its branchings are the budget's, its counts add up, no order costs less than its floor, and
// what it shows is right.
fn stopped(t: Table, budget: u64, r: Report) -> Option<Ending> {
    let marked = r.number == 0 && r.mark == STOPPED && r.branched == budget;
    if marked && adds_up(r) && u64::from(r.floor) <= t.best.cost {
        shown(t, r)
    } else {
        None
    }
}

// Whether two reports have the same counts.
fn same_counts(a: Report, b: Report) -> bool {
    a.branched == b.branched
        && a.generated == b.generated
        && a.eliminated == b.eliminated
        && a.active == b.active
        && a.most == b.most
}

// Whether two reports are the same.
fn same_report(a: Report, b: Report) -> bool {
    let order = a.order;
    let same_answer = a.number == b.number && a.mark == b.mark && order == b.order;
    same_answer && a.cost == b.cost && a.floor == b.floor && same_counts(a, b)
}

// A budget below the run's branchings stops it. Within all of them it is finished, with the same report.
pub fn limited(t: Table, budget: u64, whole: Report, r: Report) -> Option<Ending> {
    if budget < whole.branched {
        return stopped(t, budget, r);
    }
    match judged(t.best, r)? {
        Ending::Best => same_report(whole, r).then_some(Ending::Finished),
        _ => None,
    }
}

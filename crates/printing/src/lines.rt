// The lines of a report: of its order, of its counts, and those that only a stopped run has.
ghost use Rattle.std.specs.Prelude.{◌≡◌, [], ◌+◌, ◌*◌, ◌≤◌, length, get_or};
ghost use Rattle.sizes.specs.Sizes.{order_places};
ghost use Rattle.report_format.specs.Text.{ascii, spaced, line};
ghost use Rattle.report_format.specs.Printed.{answer_lines, count_lines, known_lines, stopped_lines, printed_by};
ghost use Rattle.printing.specs.Promise.{text_places};
ghost use Rattle.printing.specs.Code.{Appended, decimal_room, line_room, answer_room, counts_room};

use crate::draft::Draft;
use answer::Report;

// Writes stops, each behind a space.
fn put_stops(draft: &mut Draft, stops: &[u8])
    requires { length draft.old + decimal_room * length stops.now ≤ text_places }
    ensures { Appended draft.old (spaced stops.now) (decimal_room * length stops.now) draft.new }
{
    for s in stops {
        draft.put_decimal(u64::from(*s));
    }
}

// Writes the line of an order.
fn put_order(draft: &mut Draft, stops: &[u8])
    requires { length draft.old + line_room (ascii "order") (length stops.now) ≤ text_places }
    ensures { Appended draft.old (line "order" stops.now) (line_room (ascii "order") (length stops.now)) draft.new }
{
    draft.put_bytes(b"order");
    put_stops(draft, stops);
    draft.put_bytes(b"\n");
}

// Writes the lines of an order: the cost, and so many of its stops.
fn put_answer(draft: &mut Draft, count: usize, r: Report)
    requires { (count ≤ order_places) × (length draft.old + answer_room ≤ text_places) }
    ensures { Appended draft.old (answer_lines count r) answer_room draft.new }
{
    draft.put_line(b"cost", u64::from(r.cost));
    put_order(draft, &r.order[..count]);
}

// Writes the lines of the best order that a stopped run knows: nothing where it knows none.
fn put_known(draft: &mut Draft, count: usize, r: Report)
    requires { (count ≤ order_places) × (length draft.old + answer_room ≤ text_places) }
    ensures { Appended draft.old (known_lines (get_or r.order 0 0) count r) answer_room draft.new }
{
    if r.order[0] != 0 {
        put_answer(draft, count, r);
    }
}

// Writes the lines of the five counts.
fn put_counts(draft: &mut Draft, r: Report)
    requires { length draft.old + counts_room ≤ text_places }
    ensures { Appended draft.old (count_lines r) counts_room draft.new }
{
    draft.put_line(b"branched", r.branched);
    draft.put_line(b"generated", r.generated);
    draft.put_line(b"eliminated", r.eliminated);
    draft.put_line(b"active", r.active);
    draft.put_line(b"most", r.most);
}

// Writes the lines of a stopped run.
fn put_stopped(draft: &mut Draft, count: usize, r: Report)
    requires { (count ≤ order_places) × (draft.old ≡ []) }
    ensures { draft.new ≡ stopped_lines count r }
{
    put_known(draft, count, r);
    put_counts(draft, r);
    draft.put_line(b"mark", u64::from(r.mark));
    draft.put_line(b"floor", u64::from(r.floor));
}

// Writes the lines of a report with number 0, with so many stops of its order.
pub fn put_lines(draft: &mut Draft, count: usize, r: Report)
    requires { (count ≤ order_places) × (draft.old ≡ []) }
    ensures { draft.new ≡ printed_by 0 r.mark count r }
{
    if r.mark != 0 {
        put_stopped(draft, count, r);
        return;
    }
    put_answer(draft, count, r);
    put_counts(draft, r);
}

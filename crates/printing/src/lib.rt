// What is printed, as text in an array. `report_text` and `refusal_text` are open to a caller and ask nothing; every other function is this
// crate's own, and what it requires its callers meet. Crate `report_format` says what is printed for every report (specs/Printed).
#![tactic(auto)]

ghost use Rattle.std.specs.Prelude.{◌≡◌};
ghost use Rattle.report_format.specs.Printed.{refused_line, printed};
ghost use Rattle.printing.specs.Promise.{text_of};

mod draft;
mod lines;

use crate::draft::Draft;
use crate::lines::put_lines;
use answer::Report;
use records::order::places;

// Places for a text: the longest has nine lines, with sixteen stops and numbers of twenty digits.
pub const TEXT: usize = 568;

// A text: its bytes, with zeros behind them, and how many they are.
#[derive(Clone, Copy)]
pub struct Text {
    pub bytes: [u8; TEXT],
    pub length: usize,
}

// The line of a refusal.
pub fn refusal_text(number: u32) -> Text
    ensures { result ≡ text_of (refused_line number) }
{
    let mut draft = Draft::new();
    draft.put_line(b"refused", u64::from(number));
    draft.into_text()
}

// The text of a report of n stops: of a finished run seven lines; of a stopped one (request A.3) two more, its mark and its floor, and no cost and no
// order where none is known; of any other the refusal's line.
pub fn report_text(n: u32, report: Report) -> Text
    ensures { result ≡ text_of (printed n report) }
{
    if report.number != 0 {
        return refusal_text(report.number);
    }
    let mut draft = Draft::new();
    put_lines(&mut draft, places(n) as usize, report);
    draft.into_text()
}

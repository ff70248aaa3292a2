// A stop and its leg added to a record.
ghost use Rattle.std.specs.Prelude.{◌≡◌, true};
ghost use Rattle.inspection.specs.Code.{of_six};
ghost use Rattle.node_answers.specs.Answers.{fits, extension};

use crate::node::{holds, is_record};
use node_answers::Extended;
use sizes::MOST_STOPS;
use stops::node_record::Record;

// What is added: a stop, and what flying there costs.
#[derive(Clone, Copy)]
pub struct Added {
    pub stop: u32,
    pub leg: u32,
}

// Whether a stop and its leg fit on a record.
fn fits_on(x: Record, added: Added) -> bool
    ensures { result ≡ fits x added.stop added.leg }
{
    if !is_record(x.size, x.set, x.first, x.second, MOST_STOPS) {
        return false;
    }
    if added.stop == 0 || MOST_STOPS < added.stop {
        return false;
    }
    !holds(x.set, added.stop) && added.leg <= u32::MAX - x.path
}

// The record with both added where they fit, and as it was where they do not.
pub fn extended_of(
    size: u32,
    set: u32,
    path: u32,
    bound: u32,
    first: u32,
    second: u32,
    added: Added,
) -> Extended
    ensures { result ≡ extension true (of_six size set path bound first second) added.stop added.leg }
{
    let x = Record {
        size,
        set,
        path,
        bound,
        first,
        second,
    };
    let fits = fits_on(x, added);
    let after = if fits {
        x.extended(added.stop, added.leg)
    } else {
        x
    };
    Extended {
        inside: true,
        fits,
        after,
    }
}

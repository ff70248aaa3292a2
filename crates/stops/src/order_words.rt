// Two orders in their words, compared stop by stop (request A.8). The first stop is the lowest digit, so the words' own sequence as numbers
// is not that of the orders.
ghost use Rattle.std.specs.Prelude.{◌≡◌};
ghost use Rattle.sizes.specs.Sizes.{word_stops};
ghost use Rattle.stops.specs.Code.{digits_before, words_before};

use sizes::{STOP_BASE, WORD_STOPS};

// Whether a has the lesser digit where two words first differ, from the lowest digit on.
fn digits_before(a: u32, b: u32) -> bool
    ensures { result ≡ digits_before word_stops a b }
{
    let mut x = a;
    let mut y = b;
    for _ in 0..WORD_STOPS {
        if x % STOP_BASE != y % STOP_BASE {
            return x % STOP_BASE < y % STOP_BASE;
        }
        x /= STOP_BASE;
        y /= STOP_BASE;
    }
    false
}

// Whether the order with the words a1 and a2 is smaller than that with b1 and b2. The second words tell where the first are equal.
pub fn words_before(a1: u32, a2: u32, b1: u32, b2: u32) -> bool
    ensures { result ≡ words_before a1 a2 b1 b2 }
{
    if a1 != b1 {
        return digits_before(a1, b1);
    }
    digits_before(a2, b2)
}

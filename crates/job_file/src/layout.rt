// Sizes of a file's parts.
ghost use Rattle.std.specs.Prelude.{◌≡◌, ◌≤◌};
ghost use Rattle.sizes.specs.Sizes.{most_stops, table_numbers};
ghost use Rattle.job_format.specs.Contents.{area};

// Bytes of a word.
pub const WORD_BYTES: usize = 4;

// Bytes of the trailer.
pub const TRAILER_BYTES: usize = 13;

// How many numbers the table of n stops has.
pub fn area(n: u32) -> usize
    requires { n ≤ most_stops }
    ensures { (result ≡ area n) × (result ≤ table_numbers) }
{
    let side = (n + 1) as usize;
    side * side
}

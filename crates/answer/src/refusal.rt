// Why a call is refused. The documents give each cause a number, which is what a caller gets (specs/Refusals).
ghost use Rattle.std.specs.Prelude.{◌≡◌};
ghost use Rattle.answer.specs.Refusals.{number};

#[derive(Clone, Copy, PartialEq, Eq)]
pub enum Refusal {
    // no stop, or too many
    Stops,
    // a table of another length
    Table,
    // a leg or a landing charge too dear
    Dear,
    // no such selection, sum of rules or bound
    Choice,
    // a starting order that is none, or that goes against the pairs
    Start,
    // a pool without a whole record, or with a part of one
    Pool,
    // a pool that the run filled
    Full,
    // a file too short for a trailer
    Short,
    // a file whose length or places are not those of its layout
    Layout,
    // a buffer too short for a file
    Buffer,
    // pairs that do not pass
    Pairs,
}

impl From<Refusal> for u32 {
    ghost from_gives = { λ refusal result. result ≡ number refusal };

    fn from(refusal: Refusal) -> u32 {
        match refusal {
            Refusal::Stops => 1,
            Refusal::Table => 2,
            Refusal::Dear => 3,
            Refusal::Choice => 4,
            Refusal::Start => 5,
            Refusal::Pool => 6,
            Refusal::Full => 7,
            Refusal::Short => 8,
            Refusal::Layout => 9,
            Refusal::Buffer => 10,
            Refusal::Pairs => 11,
        }
    }
}

// What the rules that are on make of a change.
ghost use Rattle.std.specs.Prelude.{◌≡◌, cond, ◌&&◌, ◌+◌, ◌^◌, ◌<◌, ltb};
ghost use Rattle.search.specs.Step.{on};

use children::rules::on;

// The stops of the children that take part in rule 8: those of all that survive, or none.
pub fn taking_of(rules: u32, alive: u32) -> u32
    ensures { result ≡ cond (on 8 rules) alive 0 }
{
    if on(8, rules) { alive } else { 0 }
}

// How many branched records stand at the pool's far end after the step.
pub fn holding(rules: u32, far: usize) -> usize
    requires { far < 2 ^ 62 }
    ensures { result ≡ cond (on 4 rules) (far + 1) 0 }
{
    if on(4, rules) { far + 1 } else { 0 }
}

// Whether U fell and rule 1 is on.
pub fn falls(rules: u32, known: u32, upper: u32) -> bool
    ensures { result ≡ (on 1 rules && ltb upper known) }
{
    on(1, rules) && upper < known
}

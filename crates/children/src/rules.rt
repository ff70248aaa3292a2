// The choice of rules is the sum of those that are on, each of which is 1, 2, 4 or 8.
ghost use Rattle.std.specs.Prelude.{◌≡◌, ◌<◌};
ghost use Rattle.search.specs.Step.{on};

// Whether a rule is in the sum.
pub fn on(rule: u32, rules: u32) -> bool
    requires { 0 < rule }
    ensures { result ≡ on rule rules }
{
    rules / rule % 2 == 1
}

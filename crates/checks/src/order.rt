// Check 5: whether a starting order is a permutation of 1 to n.
ghost use Rattle.std.specs.Prelude.{◌≡◌, ◌≤◌, eqb};
ghost use Rattle.sizes.specs.Sizes.{most_stops};
ghost use Rattle.lists.specs.Lists.{all};
ghost use Rattle.orders.specs.Orders.{stops, flown, count, is_order};

// How often stop s stands in x.
pub fn times(x: &[u8], s: u32) -> usize
    ensures { result ≡ count s x.now }
{
    let mut times = 0;
    for r in x {
        times += usize::from(u32::from(*r) == s);
    }
    times
}

// Whether each stop of 1 to n stands in x exactly once.
fn each_once(n: u32, x: &[u8]) -> bool
    requires { n ≤ most_stops }
    ensures { result ≡ all (λ s. eqb (count s x.now) 1) (stops n) }
{
    (1..n + 1).all(|s| times(x, s) == 1)
}

// Whether s is one of 1 to n.
fn is_stop(n: u32, s: u8) -> bool
    ensures { result ≡ flown (stops n) s }
{
    1 <= s && u32::from(s) <= n
}

// Whether nothing but 1 to n stands in x.
pub fn only_stops(n: u32, x: &[u8]) -> bool
    requires { n ≤ most_stops }
    ensures { result ≡ all (flown (stops n)) x.now }
{
    x.iter().all(|s| is_stop(n, *s))
}

// Whether x is an order of 1 to n.
pub fn is_order(n: u32, x: &[u8]) -> bool
    requires { n ≤ most_stops }
    ensures { result ≡ is_order n x.now }
{
    x.len() == n as usize && each_once(n, x) && only_stops(n, x)
}

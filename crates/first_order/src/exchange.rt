// An order made cheaper by exchanges of two of its stops, none of which goes against a pair (request A.6).
ghost use Rattle.std.specs.Prelude.{◌≡◌, ◌<◌, length};
ghost use Rattle.orders.specs.Orders.{Order};
ghost use Rattle.stops.specs.Legs.{legs, cost};
ghost use Rattle.first_answer.specs.Exchanges.{exchanged, best_exchange, improved};
ghost use Rattle.first_order.specs.Code.{AllowedBy, allowed_by, allowed_cost, made, Makes, better, best_behind};

use crate::terms::Terms;
use pairs::respected;
use sizes::ABOVE_EVERY_COST;
use stops::cost::order_cost;

// Two positions of an order, and what it costs once their stops are exchanged.
#[derive(Clone, Copy)]
struct Exchange {
    cost: u32,
    p: usize,
    q: usize,
}

// Of two exchanges the one that leads to the lower cost, the first of equals.
fn better(a: Exchange, b: Exchange) -> Exchange
    ensures { result ≡ better a b }
{
    if b.cost < a.cost { b } else { a }
}

impl Terms<'_> {
    // What an order costs; above every cost if it goes against a pair, so that it is never the better one.
    fn allowed_cost(&self, x: &[u8]) -> u32
        requires { Order self.now.n x.now }
        ensures { result ≡ allowed_cost self.now x.now }
    {
        if !respected(self.precedence, self.n, x) {
            return ABOVE_EVERY_COST;
        }
        order_cost(self.t, x)
    }

    // The same of an order once the stops at two positions are exchanged. The order is left as it was.
    fn exchange_cost(&self, x: &mut [u8], p: usize, q: usize) -> u32
        requires { Order self.now.n x.old × ((p < length x.old) × (q < length x.old)) }
        ensures { (result ≡ allowed_cost self.now (exchanged x.old p q)) × (x.new ≡ x.old) }
    {
        x.swap(p, q); // there
        let cost = self.allowed_cost(x);
        x.swap(p, q); // and back
        cost
    }

    // The best of an exchange and of those of position p with the positions behind it.
    fn best_with(&self, x: &mut [u8], p: usize, best: Exchange) -> Exchange
        requires { Order self.now.n x.old × ((p < length x.old) × Makes (allowed_cost self.now) x.old best (made x.old best)) }
        ensures { (x.new ≡ x.old) × Makes (allowed_cost self.now) x.old result (best_behind (allowed_cost self.now) x.old p best) }
    {
        let mut found = best;
        for q in p + 1..x.len() {
            let cost = self.exchange_cost(x, p, q);
            found = better(found, Exchange { cost, p, q });
        }
        found
    }

    // The exchange that may be made and lowers the cost of an order most; of its first stop with itself if none lowers it. The order is left as it was.
    fn best_exchange(&self, x: &mut [u8], own: u32) -> Exchange
        requires { AllowedBy self.now x.old × (own ≡ cost (legs self.now.t.now) x.old) }
        ensures { (x.new ≡ x.old) × Makes (cost (legs self.now.t.now)) x.old result (best_exchange (legs self.now.t.now) (allowed_by self.now.precedence) x.old) }
    {
        let mut found = Exchange {
            cost: own,
            p: 0,
            q: 0,
        };
        for p in 0..x.len() {
            found = self.best_with(x, p, found);
        }
        found
    }

    // Makes exchanges as long as one lowers the cost, each time the one that lowers it most. Returns the cost that is left.
    pub fn improve(&self, x: &mut [u8]) -> u32
        requires { AllowedBy self.now x.old }
        ensures { (x.new ≡ improved (legs self.now.t.now) (allowed_by self.now.precedence) x.old) × (result ≡ cost (legs self.now.t.now) x.new) }
    {
        let mut cost = order_cost(self.t, x);
        let mut found = self.best_exchange(x, cost);
        while found.cost < cost {
            x.swap(found.p, found.q);
            cost = found.cost;
            found = self.best_exchange(x, cost);
        }
        cost
    }
}

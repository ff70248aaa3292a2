// Part 1 of a step: the children of a node, each in the slot of its stop, with their bounds, which are found for all of them at once (request
// A.7, crate `carried`); and e, with which a run starts.
ghost use Rattle.std.specs.Prelude.{◌≡◌, ◌≤◌, length};
ghost use Rattle.sizes.specs.Sizes.{most_stops};
ghost use Rattle.records.specs.Code.{records};
ghost use Rattle.children.specs.Code.{Rows, Encoded, Bears, born_of, root_of, Born};

use crate::setting::Setting;
use carried::{added, child_costs};
use pairs::ready;
use records::{slot, store};
use sizes::PLACES;
use stops::bound::ahead;
use stops::node_record::Record;
use stops::sets::stops_of;

// e, with its bound.
pub fn root(setting: Setting, t: [[u32; PLACES]; PLACES]) -> Record
    requires { Rows setting t }
    ensures { result ≡ root_of setting t }
{
    let mut x = Record::empty();
    x.bound = ahead(&t, setting.bound, 0, (1u32 << setting.n) - 1);
    x
}

// b extended by stop s, with its bound; leg is what flying there costs, and ahead what the bound adds to its path cost.
fn child(b: Record, s: u32, leg: u32, ahead: u32) -> Record
    requires { Bears b s leg ahead }
    ensures { result ≡ born_of b s leg ahead }
{
    let mut x = b.extended(s, leg);
    x.bound = x.path + ahead;
    x
}

// Writes each child of b to the slot of its stop in kids, and gives the set of these stops: those that b leaves and that need not wait (request A.6).
pub fn family(setting: Setting, t: [[u32; PLACES]; PLACES], b: Record, kids: &mut [u32]) -> u32
    requires { Rows setting t × (Encoded setting t b × (most_stops ≤ length (records kids.old))) }
    ensures { Born setting t b result (records kids.new) }
{
    let rest = (1u32 << setting.n) - 1 - b.set;
    let born = ready(setting.precedence, rest);
    let mut into = [0u32; PLACES];
    let costs = child_costs(setting.n, setting.bound, t, b, &mut into);
    for s in stops_of(born) {
        let ahead = added(costs.family, into[s as usize], s);
        store(kids, slot(s), child(b, s, costs.legs[s as usize], ahead));
    }
    born
}

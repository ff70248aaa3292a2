// The record of a node: six words, in the layout in which a host that holds records has them.
ghost use Rattle.std.specs.Prelude.{◌≡◌, ◌+◌, ◌-◌, ◌<◌};
ghost use Rattle.stops.specs.Code.{Wide, extended, last_stop, empty_record, rec_dominates};

use crate::order_words::words_before;
use sizes::{MOST_STOPS, STOP_BASE, STOP_BITS, WORD_STOPS};

#[repr(C)]
#[derive(Clone, Copy)]
pub struct Record {
    pub size: u32,
    pub set: u32,
    pub path: u32,
    pub bound: u32,
    pub first: u32,
    pub second: u32,
}

impl Record {
    // The empty node, e, with no bound yet.
    pub fn empty() -> Record
        ensures { result ≡ empty_record }
    {
        Record {
            size: 0,
            set: 0,
            path: 0,
            bound: 0,
            first: 0,
            second: 0,
        }
    }

    // The node with a stop and what flying there costs added, and no bound yet. Its size is that of the set, and 1 for the new
    // stop.
    pub fn extended(mut self, stop: u32, leg: u32) -> Record
        requires { Wide self stop leg }
        ensures { result ≡ extended self stop leg }
    {
        let place = self.size;
        self.size = u32::count_ones(self.set) + 1;
        self.set += 1u32 << (stop - 1);
        self.path += leg;
        self.bound = 0;
        if place < WORD_STOPS {
            self.first += (stop - 1) << (STOP_BITS * place);
        } else {
            self.second += (stop - 1) << (STOP_BITS * (place - WORD_STOPS));
        }
        self
    }

    // The last stop flown; 0 for e, and for words that are no node's.
    pub fn last(self) -> u32
        ensures { result ≡ last_stop self }
    {
        let size = self.size;
        if size == 0 {
            return 0;
        }
        if size <= WORD_STOPS {
            return (self.first >> (STOP_BITS * (size - 1))) % STOP_BASE + 1;
        }
        if size <= MOST_STOPS {
            return (self.second >> (STOP_BITS * (size - 1 - WORD_STOPS))) % STOP_BASE + 1;
        }
        0
    }

    // Whether this node dominates another: two nodes of one set and one last stop, and this one's path is the cheaper or, where both cost
    // the same, its order the smaller (request A.8).
    pub fn dominates(self, other: Record) -> bool
        ensures { result ≡ rec_dominates self other }
    {
        if self.size != other.size {
            return false;
        }
        if self.set != other.set {
            return false;
        }
        if other.path < self.path {
            return false;
        }
        if self.last() != other.last() {
            return false;
        }
        if self.path < other.path {
            return true;
        }
        words_before(self.first, self.second, other.first, other.second)
    }
}

// The numbers that documents 01 and 02 fix, by name, as the code has them. specs/Sizes has the same for the definitions. What follows from
// another is reckoned from it.
#![tactic(auto)]

// Stops of a day.
pub const MOST_STOPS: u32 = 16;

// Places of a day: its stops and home.
pub const PLACES: usize = MOST_STOPS as usize + 1;

// Numbers of the largest table.
pub const TABLE_NUMBERS: usize = PLACES * PLACES;

// Places for the stops of an order.
pub const ORDER_PLACES: usize = MOST_STOPS as usize;

// The dearest leg.
pub const DEAREST_LEG: u32 = 1_000_000;

// The dearest landing charge (request A.4).
pub const DEAREST_CHARGE: u32 = 100_000;

// Words of a node record.
pub const RECORD_WORDS: usize = 6;

// Bits of a stop in the words of an order, how many values these have, and how many stops a word holds.
pub const STOP_BITS: u32 = 4;

pub const STOP_BASE: u32 = 1 << STOP_BITS;

pub const WORD_STOPS: u32 = 8;

// U while no order is known: above the cost of every order.
pub const ABOVE_EVERY_COST: u32 = 4_294_967_295;

// A limit on bounds that every bound keeps.
pub const NO_LIMIT: u32 = 4_294_967_295;

// A budget that no run reaches (request A.3): the largest 64-bit number.
pub const NO_BUDGET: u64 = 18_446_744_073_709_551_615;

// Pairs that there may be (request A.6), and bytes of the longest pair file.
pub const MOST_PAIRS: usize = 8;

pub const MOST_PAIR_BYTES: usize = 2 * MOST_PAIRS;

// Bytes of the longest job file: its table, its starting order and its trailer.
pub const LONGEST: usize = 4 * TABLE_NUMBERS + ORDER_PLACES + 13;

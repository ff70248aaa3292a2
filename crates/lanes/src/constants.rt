// The numbers of the pool's inside, by name; specs/Sizes has the same for the definitions. No answer depends on them.

// The bound of a record that is gone, and a limit that the bounds of all others keep.
pub const GONE: u32 = 4_294_967_295;

pub const EVERY_BOUND: u32 = GONE - 1;

// Blocks of places whose least bounds are kept, and by what power of two places a block starts with.
pub const BLOCKS: usize = 512;

pub const FIRST_SHIFT: u32 = 4;

// Pools of fewer records are linked: numbers of records fit a word.
pub const MOST_LINKED: usize = 4_294_967_295;

// Heads of a lane's chains.
pub const HEADS: usize = 8192;

// The index: the blocks' minima, the heads of the active lane, the heads of the branched lane.
pub const ACTIVE_HEADS: usize = BLOCKS;

pub const FAR_HEADS: usize = ACTIVE_HEADS + HEADS;

pub const INDEX_WORDS: usize = FAR_HEADS + HEADS;

// Records that are gone are squeezed out when they are more than the nodes divided by LIVE_FOR_GONE, and SPARED.
pub const LIVE_FOR_GONE: usize = 4;

pub const SPARED: usize = 256;

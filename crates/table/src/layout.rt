// The layout of a table's words, as specs/Layout.antt has it.
pub const VERTICES: usize = 512;

pub const EDGES: usize = 1024;

pub const DARTS: usize = 2048;

pub const WORDS: usize = 8704;

// Where each kind of word begins; "next" words begin at 0.
pub const PREV: usize = 2048;

pub const LEAVES: usize = 4096;

pub const EDGE: usize = 6144;

pub const VERTEX: usize = 7168;

pub const LENGTH: usize = 7680;

// The word of what is not there, and of a vertex that is live and isolated.
pub const NOTHING: u16 = 65535;

pub const ISOLATED: u16 = 65534;

// The word of an edge without turns; the most turns that an edge may have, either way; the largest edge word.
pub const UNTURNED: u16 = 100;

pub const MOST_TURNS: u16 = 99;

pub const EDGE_WORD_MAX: u16 = 199;

// Where the corner words of isolated vertices begin.
pub const LONE: u16 = 32768;

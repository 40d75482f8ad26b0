// How many words each part of a window takes; docs/LAYOUT.md has the table.

// places of a column: the records that a window holds at most
pub const PLACES: usize = 256;
// seats, and keys: the places of a table by seat
pub const SEATS: usize = 256;

pub const HASH_WORDS: usize = 4;
// a record's words, a column for each
pub const COLUMNS: usize = HASH_WORDS + 4;
// a record that was let go, and its reason
pub const RELEASE_WORDS: usize = COLUMNS + 1;

pub const REPORT_WORDS: usize = PLACES * RELEASE_WORDS;

// the states in the head, without the number of the hedged fronts
pub const STALL_WORDS: usize = 2 + HASH_WORDS;

pub const STUCK_WORDS: usize = 2 + HASH_WORDS;

pub const COLD_WORDS: usize = 3 + HASH_WORDS;
// MAX_COLD_FRONT_HEDGES
pub const HEDGES: usize = 2;

pub const HEDGED_WORDS: usize = HEDGES * HASH_WORDS;

pub const OBSERVATION_WORDS: usize = 2 + HASH_WORDS;
// PREFIX_PROBE_BLOCK_LIMIT: the hashes that a probe has at most
pub const PROBED: usize = 8;
// PREFIX_PROBE_WIN_BLOCKS: those that win it
pub const WIN_BLOCKS: usize = 4;

pub const PLANNED_WORDS: usize = PROBED * HASH_WORDS;

pub const PROBE_WORDS: usize = 4 + PLANNED_WORDS;

pub const SETTINGS_WORDS: usize = 12;

pub const HEAD_WORDS: usize = 512;

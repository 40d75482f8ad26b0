// The sizes and numbers of a payload on the wire; Getdata.antt has their meaning.

// entries at most
pub const MAX_GETDATA: usize = 256;
// CompactSize: from this number on a count is this byte, 0xFD, and two more
pub const IN_TWO: usize = 253;

pub const IN_TWO_WIDTH: usize = 3;
// BIP 144's witness block
pub const MSG_WITNESS_BLOCK: u64 = 0x4000_0002;

// ---- an entry: its type, and where each word of its hash begins

pub const TYPE_SIZE: usize = 4;

pub const WORD_SIZE: usize = 8;

pub const FIRST: usize = TYPE_SIZE;

pub const SECOND: usize = FIRST + WORD_SIZE;

pub const THIRD: usize = SECOND + WORD_SIZE;

pub const FOURTH: usize = THIRD + WORD_SIZE;

pub const ENTRY_SIZE: usize = FOURTH + WORD_SIZE;

// The places in the nine words of a release: its hash, then its record's other fields, then the reason.
use crate::sizes;

pub const OWNER: usize = sizes::HASH_WORDS;

pub const TIME: usize = OWNER + 1;

pub const HEIGHT: usize = TIME + 1;

pub const ESTIMATE: usize = HEIGHT + 1;

pub const REASON: usize = ESTIMATE + 1;

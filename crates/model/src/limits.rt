// The limits of what a window may hold and of what a call may be handed. Where no other file is named, Numbers.antt has each by the same name.
// Contracts name them (`clock ≤ max_clock`): a type for each bound would be made at every call from C and opened at every sum (DECISIONS 59).
use crate::sizes;

// the format word's value, `format` of Layout.antt: a later layout takes another
pub const FORMAT: u64 = 1;

// 2^62
pub const MAX_CLOCK: u64 = 4_611_686_018_427_387_904;

pub const MAX_HEIGHT: u64 = 4_294_967_295;

pub const MIN_ESTIMATE: u64 = 80;

pub const MAX_ESTIMATE: u64 = 4_294_967_295;

pub const MAX_BODY: u64 = 4_294_967_295;

pub const MAX_DURATION: u64 = 1_000_000_000_000_000;

pub const MAX_BYTE_LIMIT: u64 = 1_099_511_627_776;

pub const MAX_COUNT: u64 = 65_535;

pub const MAX_PENDING: u64 = sizes::PLACES as u64;

pub const MAX_SEAT: u64 = 255;
// in ms: 2^62 / 10^6
pub const MAX_FRONT_MEAN: u64 = 4_611_686_018_427;
// a racer's progress and a probe's accepted count are bytes
pub const MAX_PROGRESS: u64 = 255;

// ---- as they are stored where they may be missing: one more, 0 for none; `suc` of the limit in Layout.antt

pub const MAX_STORED_FRONT_MEAN: u64 = MAX_FRONT_MEAN + 1;

pub const MAX_STORED_SEAT: u64 = MAX_SEAT + 1;

pub const MAX_STORED_PROGRESS: u64 = MAX_PROGRESS + 1;

// ---- races, by the Rust's names; the definitions are in Races.antt

// `max_hedges`
pub const MAX_COLD_FRONT_HEDGES: u64 = sizes::HEDGES as u64;

// this and the next are the two numbers in `plan_limit`
pub const PREFIX_PROBE_ESTIMATED_BYTES: u64 = 2_097_152;

pub const PREFIX_PROBE_BLOCK_LIMIT: u64 = sizes::PROBED as u64;

// `win_blocks`
pub const PREFIX_PROBE_WIN_BLOCKS: u64 = sizes::WIN_BLOCKS as u64;

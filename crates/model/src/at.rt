// The places in the words of a window, each table where the one before it ends.
use crate::{head, sizes};

// ---- the columns, a place for each record

pub const HASH_A: usize = 0;

pub const HASH_B: usize = HASH_A + sizes::PLACES;

pub const HASH_C: usize = HASH_B + sizes::PLACES;

pub const HASH_D: usize = HASH_C + sizes::PLACES;

pub const OWNERS: usize = HASH_D + sizes::PLACES;

pub const TIMES: usize = OWNERS + sizes::PLACES;

pub const HEIGHTS: usize = TIMES + sizes::PLACES;

pub const ESTIMATES: usize = HEIGHTS + sizes::PLACES;
// kept 0, for a ninth column
pub const SPARE: usize = ESTIMATES + sizes::PLACES;

// ---- the tables by seat, and by key

pub const STARTS: usize = SPARE + sizes::PLACES;

pub const BODIES: usize = STARTS + sizes::SEATS;

pub const KEYS: usize = BODIES + sizes::SEATS;

pub const COOLING: usize = KEYS + sizes::SEATS;

pub const RACERS: usize = COOLING + sizes::SEATS;

// ---- the head

pub const HEAD: usize = RACERS + sizes::SEATS;

pub const WORDS: usize = HEAD + sizes::HEAD_WORDS;

pub const FORMAT: usize = HEAD + head::FORMAT;

pub const COUNT: usize = HEAD + head::COUNT;

pub const LAST_CLOCK: usize = HEAD + head::LAST_CLOCK;

pub const TOTAL: usize = HEAD + head::TOTAL;

pub const HIGH_BLOCKS: usize = HEAD + head::HIGH_BLOCKS;

pub const HIGH_BYTES: usize = HEAD + head::HIGH_BYTES;

pub const MEAN: usize = HEAD + head::MEAN;

pub const FRONTIER: usize = HEAD + head::FRONTIER;

pub const MAX_PENDING_BLOCKS: usize = HEAD + head::MAX_PENDING_BLOCKS;

pub const MAX_PENDING_BYTES: usize = HEAD + head::MAX_PENDING_BYTES;

pub const MAX_RECEIVED_BLOCKS: usize = HEAD + head::MAX_RECEIVED_BLOCKS;

pub const MAX_PEER_INFLIGHT: usize = HEAD + head::MAX_PEER_INFLIGHT;

pub const FANOUT_PEER_INFLIGHT: usize = HEAD + head::FANOUT_PEER_INFLIGHT;

pub const MIN_PEERS_FOR_FANOUT: usize = HEAD + head::MIN_PEERS_FOR_FANOUT;

pub const GETDATA_BATCH_LIMIT: usize = HEAD + head::GETDATA_BATCH_LIMIT;

pub const BLOCK_SPACING: usize = HEAD + head::BLOCK_SPACING;

pub const RECEIVED_TIMEOUT: usize = HEAD + head::RECEIVED_TIMEOUT;

pub const STALL_TIMEOUT_INITIAL: usize = HEAD + head::STALL_TIMEOUT_INITIAL;

pub const STALL_TIMEOUT_MAX: usize = HEAD + head::STALL_TIMEOUT_MAX;

pub const STALLER_COOLDOWN: usize = HEAD + head::STALLER_COOLDOWN;

pub const FANOUT_ELIGIBLE: usize = HEAD + head::FANOUT_ELIGIBLE;

pub const FANOUT_ENGAGED: usize = HEAD + head::FANOUT_ENGAGED;

pub const FRONT_MEAN: usize = HEAD + head::FRONT_MEAN;

pub const FRONT_ADVANCE: usize = HEAD + head::FRONT_ADVANCE;

pub const STALL_TIMEOUT: usize = HEAD + head::STALL_TIMEOUT;

pub const PREFERRED: usize = HEAD + head::PREFERRED;

pub const ATTEMPTED: usize = HEAD + head::ATTEMPTED;

pub const STALL: usize = HEAD + head::STALL;

pub const STUCK: usize = HEAD + head::STUCK;

pub const COLD: usize = HEAD + head::COLD;

pub const COLD_OWNER: usize = HEAD + head::COLD_OWNER;

pub const COLD_OTHER: usize = HEAD + head::COLD_OTHER;

pub const HEDGED: usize = HEAD + head::HEDGED;

pub const HEDGED_HASHES: usize = HEAD + head::HEDGED_HASHES;

pub const OBSERVATION: usize = HEAD + head::OBSERVATION;

pub const OBSERVATION_OWNER: usize = HEAD + head::OBSERVATION_OWNER;

pub const PROBE: usize = HEAD + head::PROBE;

pub const PROBE_OWNER: usize = HEAD + head::PROBE_OWNER;

pub const PROBE_COUNT: usize = HEAD + head::PROBE_COUNT;

pub const PROBE_ACCEPTED: usize = HEAD + head::PROBE_ACCEPTED;

pub const PROBE_HASHES: usize = HEAD + head::PROBE_HASHES;

pub const KEPT: usize = HEAD + head::KEPT;

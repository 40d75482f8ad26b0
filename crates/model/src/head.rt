// The places in the head, counted from its first word: `word` of Layout.antt and `layout::word_of` count so. `at` has the same places counted from
// the first of all words.
use crate::sizes;

pub const FORMAT: usize = 0;

pub const COUNT: usize = FORMAT + 1;

pub const LAST_CLOCK: usize = COUNT + 1;

pub const TOTAL: usize = LAST_CLOCK + 1;

pub const HIGH_BLOCKS: usize = TOTAL + 1;

pub const HIGH_BYTES: usize = HIGH_BLOCKS + 1;

pub const MEAN: usize = HIGH_BYTES + 1;

pub const FRONTIER: usize = MEAN + 1;

// the settings
pub const MAX_PENDING_BLOCKS: usize = FRONTIER + 1;

pub const MAX_PENDING_BYTES: usize = MAX_PENDING_BLOCKS + 1;

pub const MAX_RECEIVED_BLOCKS: usize = MAX_PENDING_BYTES + 1;

pub const MAX_PEER_INFLIGHT: usize = MAX_RECEIVED_BLOCKS + 1;

pub const FANOUT_PEER_INFLIGHT: usize = MAX_PEER_INFLIGHT + 1;

pub const MIN_PEERS_FOR_FANOUT: usize = FANOUT_PEER_INFLIGHT + 1;

pub const GETDATA_BATCH_LIMIT: usize = MIN_PEERS_FOR_FANOUT + 1;

pub const BLOCK_SPACING: usize = GETDATA_BATCH_LIMIT + 1;

pub const RECEIVED_TIMEOUT: usize = BLOCK_SPACING + 1;

pub const STALL_TIMEOUT_INITIAL: usize = RECEIVED_TIMEOUT + 1;

pub const STALL_TIMEOUT_MAX: usize = STALL_TIMEOUT_INITIAL + 1;

pub const STALLER_COOLDOWN: usize = STALL_TIMEOUT_MAX + 1;

pub const FANOUT_ELIGIBLE: usize = STALLER_COOLDOWN + 1;

pub const FANOUT_ENGAGED: usize = FANOUT_ELIGIBLE + 1;

pub const FRONT_MEAN: usize = FANOUT_ENGAGED + 1;

pub const FRONT_ADVANCE: usize = FRONT_MEAN + 1;

pub const STALL_TIMEOUT: usize = FRONT_ADVANCE + 1;

pub const PREFERRED: usize = STALL_TIMEOUT + 1;

pub const ATTEMPTED: usize = PREFERRED + 1;

// stall episode: since, owner, hash
pub const STALL: usize = ATTEMPTED + 1;

pub const STALL_OWNER: usize = STALL + 1;

pub const STALL_HASH: usize = STALL_OWNER + 1;

// stuck frontier: since, height, hash
pub const STUCK: usize = STALL + sizes::STALL_WORDS;

pub const STUCK_HEIGHT: usize = STUCK + 1;

pub const STUCK_HASH: usize = STUCK_HEIGHT + 1;

// cold front: none, waiting or racing; owner; since or alternate; hash
pub const COLD: usize = STUCK + sizes::STUCK_WORDS;

pub const COLD_OWNER: usize = COLD + 1;

pub const COLD_OTHER: usize = COLD_OWNER + 1;

pub const COLD_HASH: usize = COLD_OTHER + 1;

// hedged fronts: how many, hashes
pub const HEDGED: usize = COLD + sizes::COLD_WORDS;

pub const HEDGED_HASHES: usize = HEDGED + 1;

// observation: none, armed or swept; owner; hash
pub const OBSERVATION: usize = HEDGED_HASHES + sizes::HEDGED_WORDS;

pub const OBSERVATION_OWNER: usize = OBSERVATION + 1;

pub const OBSERVATION_HASH: usize = OBSERVATION_OWNER + 1;

// probe: started, owner, number of hashes, accepted; its hashes
pub const PROBE: usize = OBSERVATION + sizes::OBSERVATION_WORDS;

pub const PROBE_OWNER: usize = PROBE + 1;

pub const PROBE_COUNT: usize = PROBE_OWNER + 1;

pub const PROBE_ACCEPTED: usize = PROBE_COUNT + 1;

pub const PROBE_HASHES: usize = PROBE_ACCEPTED + 1;

// kept 0 from here to the end, the first six words for a chain tip
pub const KEPT: usize = PROBE + sizes::PROBE_WORDS;

pub const KEPT_WORDS: usize = sizes::HEAD_WORDS - KEPT;

// Types that code and definitions share, and the names of places, sizes and limits.
#![tactic(auto)]

ghost use Rattle.std.specs.Prelude.{◌≡◌};
ghost use Rattle.model.specs.Reasons.{reason_number};
ghost use Rattle.model.specs.Says.{number};

pub mod at;
pub mod head;
pub mod limits;
pub mod of_release;
pub mod sizes;

// The lent words of a window.
pub type Words = [u64; at::WORDS];

// A word for each seat: flags, keys.
pub type PerSeat = [u64; sizes::SEATS];

// A word for each place of the records or of a report: marks, orders.
pub type PerPlace = [u64; sizes::PLACES];

// What was let go, in flat words: nine for each place of a report.
pub type Gone = [u64; sizes::REPORT_WORDS];

// The same, of one place.
pub type OneGone = [u64; sizes::RELEASE_WORDS];

// A block hash: 32 bytes as four words, the first bytes heaviest.
#[repr(C)]
#[derive(Clone, Copy, PartialEq, Eq, PartialOrd, Ord)]
pub struct Hash {
    pub a: u64,
    pub b: u64,
    pub c: u64,
    pub d: u64,
}

// A block that was asked for and is not in yet: the Rust's `PendingBlock` with its hash.
#[repr(C)]
#[derive(Clone, Copy)]
pub struct Entry {
    pub hash: Hash,
    pub owner: u64,
    pub time: u64,
    pub height: u64,
    pub estimate: u64,
}

// An entry that was let go, and why: the number of one of the ten reasons, as the C interface says it.
#[repr(C)]
#[derive(Clone, Copy)]
pub struct Release {
    pub entry: Entry,
    pub reason: u64,
}

// The Rust's `SyncBudget`: what the ported functions read of it. Durations are in nanoseconds.
#[repr(C)]
#[derive(Clone, Copy)]
pub struct Settings {
    pub max_pending_blocks: u64,
    pub max_pending_bytes: u64,
    pub max_received_blocks: u64,
    pub max_peer_inflight: u64,
    pub fanout_peer_inflight: u64,
    pub min_peers_for_fanout: u64,
    pub getdata_batch_limit: u64,
    pub block_spacing: u64,
    pub received_timeout: u64,
    pub stall_timeout_initial: u64,
    pub stall_timeout_max: u64,
    pub staller_cooldown: u64,
}

// The pace of the front: `front_interval_ewma_ms` (0 for none, m + 1 for m), `last_front_advance` (0 for none, t + 1 for t),
// `stall_timeout`.
#[repr(C)]
#[derive(Clone, Copy)]
pub struct Pace {
    pub mean: u64,
    pub advance: u64,
    pub wait: u64,
}

// `fanout_eligible_peers`, `fanout_engaged`.
#[derive(Clone, Copy)]
pub struct Fanout {
    pub eligible: u64,
    pub engaged: bool,
}

// `StallEpisode`: the owner of the front that holds the chain back, that front's hash, and since when.
#[derive(Clone, Copy)]
pub struct StallEpisode {
    pub owner: u64,
    pub front: Hash,
    pub since: u64,
}

// `ApplySideStuck`: the height that is not applied, the frontier's hash, and since when.
#[derive(Clone, Copy)]
pub struct StuckFrontier {
    pub height: u64,
    pub front: Hash,
    pub since: u64,
}

// `ColdFrontState`, where there is one: owner, hash, since; owner, alternate, hash.
#[derive(Clone, Copy)]
pub enum ColdFront {
    Idle,
    Waiting(u64, Hash, u64),
    Racing(u64, u64, Hash),
}

// `PrefixProbe`: its owner, which of its hashes came in, a bit for each, and when it started. Its hashes and its racers stand beside it.
#[derive(Clone, Copy)]
pub struct PrefixProbe {
    pub owner: u64,
    pub accepted: u64,
    pub started: u64,
}

// `PendingTimeoutObservation`, where there is one: owner, hash; `Swept` where its `expired_release` is set.
#[derive(Clone, Copy)]
pub enum Observation {
    Unarmed,
    Armed(u64, Hash),
    Swept(u64, Hash),
}

// Why a call is refused: SPECIFICATION 4.1 has a number for each, `number` of Says.antt.
#[derive(Clone, Copy)]
pub enum Refusal {
    WordCount,
    NotAWindow,
    ShortReport,
    Clock,
    Settings,
    Seats,
    Listed,
    Many,
    Body,
    ShortOutput,
    Payload,
    Chain,
}

// As the C interface says it.
impl From<Refusal> for u64 {
    ghost from_gives = { λ r n. n ≡ number r };

    fn from(r: Refusal) -> u64 {
        match r {
            Refusal::WordCount => 1,
            Refusal::NotAWindow => 2,
            Refusal::ShortReport => 3,
            Refusal::Clock => 4,
            Refusal::Settings => 5,
            Refusal::Seats => 6,
            Refusal::Listed => 7,
            Refusal::Many => 8,
            Refusal::Body => 9,
            Refusal::ShortOutput => 10,
            Refusal::Payload => 11,
            Refusal::Chain => 12,
        }
    }
}

// Why an entry goes: SPECIFICATION 5.1 has a number for each, `reason_number` of Reasons.antt.
#[derive(Clone, Copy, PartialEq, Eq)]
pub enum Reason {
    Delivered,
    OwnerRejection,
    Retry,
    Released,
    Retired,
    OwnerTimeOut,
    PassedOver,
    SeatLost,
    PrefixRaceLost,
    HedgeLost,
}

// As a report says it.
impl From<Reason> for u64 {
    ghost from_gives = { λ r n. n ≡ reason_number r };

    fn from(r: Reason) -> u64 {
        match r {
            Reason::Delivered => 1,
            Reason::OwnerRejection => 2,
            Reason::Retry => 3,
            Reason::Released => 4,
            Reason::Retired => 5,
            Reason::OwnerTimeOut => 6,
            Reason::PassedOver => 7,
            Reason::SeatLost => 8,
            Reason::PrefixRaceLost => 9,
            Reason::HedgeLost => 10,
        }
    }
}

// What `mark_owned_fetch` answers: the Rust's true, true, true, false.
#[derive(Clone, Copy)]
pub enum Fetch {
    Held,
    Staged,
    Asked,
    NoCapacity,
}

// What `mark_received_from` answers: places of the report filled, and the height where the block was pending.
#[derive(Clone, Copy)]
pub struct Received {
    pub places: u64,
    pub height: Option<u64>,
}

// What `reject_delivery` answers, by the Rust's names: places filled where it released an entry.
#[derive(Clone, Copy)]
pub enum Rejected {
    ReleasedPending(u64),
    DiscardedUnsolicited,
}

// What `observe_blocked` answers: a blamed owner, by staller or by pending timeout; height, hash and time of suppression; owner and hash.
#[derive(Clone, Copy)]
pub enum Blocked {
    NoDecision,
    BlameStaller(u64),
    BlamePendingTimeout(u64),
    EvictStaged(u64, Hash, u64),
    HedgeColdFront(u64, Hash),
}

// What `prefix_probe_plan` answers beside its hashes, where there is a plan.
#[derive(Clone, Copy)]
pub struct Plan {
    pub owner: u64,
    pub count: u64,
    pub end_height: u64,
}

// A request that is planned: the number of its entries, and its next height.
#[derive(Clone, Copy)]
pub struct Request {
    pub count: u64,
    pub next_height: u64,
}

// What `next_peer_request` answers beside its lists: places of the report filled, and the request where there is one.
#[derive(Clone, Copy)]
pub struct NextRequest {
    pub places: u64,
    pub request: Option<Request>,
}

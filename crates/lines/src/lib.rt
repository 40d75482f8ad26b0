// What `demo` writes, as bytes: numbers set right and grouped by thousands, answers in few words, and one line of 80 bytes for a call.
#![tactic(auto)]

pub mod cells;
pub mod rows;
pub mod words;

use model::{Reason, Refusal};

// The calls of the window, by their names, and a number that is none of theirs.
#[derive(Clone, Copy)]
pub enum Call {
    Open,
    MarkRequested,
    MarkOwnedFetch,
    MarkReceivedFrom,
    RejectDelivery,
    ExpirePending,
    RequeueForRetry,
    ReleasePending,
    RetireBefore,
    RetainOwnedBy,
    ObserveBlocked,
    ConfirmColdFrontHedge,
    ConfirmPrefixProbe,
    SetFanoutEligiblePeers,
    ClearPreferredPeer,
    NextPeerRequest,
    Other(usize),
}

// A call that was made: tenths of a second, which call, its peer and its first block where it has any, and the last of several blocks.
#[derive(Clone, Copy)]
pub struct Made {
    pub time: u64,
    pub call: Call,
    pub peer: Option<u64>,
    pub first: Option<u64>,
    pub last: Option<u64>,
}

// The window after it: blocks and bytes pending, and how many of the blocks are with the peer.
#[derive(Clone, Copy)]
pub struct After {
    pub pending: u64,
    pub bytes: u64,
    pub share: u64,
}

// How an answer begins.
#[derive(Clone, Copy)]
pub enum Head {
    Done,
    Refused,
    Asked,
    Held,
    Staged,
    NoRoom,
    LetGo,
    GotIt,
    GotItAnd,
    Unasked,
    NoBlame,
    Blames,
    Evicts,
    Hedges,
    Planned,
    NoPlan,
}

// How it ends: with why an entry went, with why the call is refused, or with another word.
#[derive(Clone, Copy)]
pub enum Tail {
    Why(Reason),
    Because(Refusal),
    IsPending,
    RoomLeft,
    Full,
    Discarded,
    Staller,
    Silent,
    Staged,
    ColdFront,
}

// What is said of a call. A refused one has its refusal instead: an answer is a `Result<Said, Refusal>`.
#[derive(Clone, Copy)]
pub struct Said {
    pub head: Head,
    pub number: Option<u64>,
    pub tail: Option<Tail>,
}

// The lines of the book.
#[derive(Clone, Copy)]
pub enum Entry {
    Opened,
    LetGo(Reason),
    LetGoInAll,
    Pending,
}

// In the order of the page (`Entry::nth`).
pub const ENTRIES: [Entry; 13] = [
    Entry::Opened,
    Entry::LetGo(Reason::Delivered),
    Entry::LetGo(Reason::OwnerRejection),
    Entry::LetGo(Reason::Retry),
    Entry::LetGo(Reason::Released),
    Entry::LetGo(Reason::Retired),
    Entry::LetGo(Reason::OwnerTimeOut),
    Entry::LetGo(Reason::PassedOver),
    Entry::LetGo(Reason::SeatLost),
    Entry::LetGo(Reason::PrefixRaceLost),
    Entry::LetGo(Reason::HedgeLost),
    Entry::LetGoInAll,
    Entry::Pending,
];

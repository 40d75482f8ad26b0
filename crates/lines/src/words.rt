// The words of the demo. An answer is a head, a number or none, and a tail.
ghost use Rattle.std.specs.Prelude.{◌≡◌, Some, None, MatchResult};
ghost use Rattle.lines.specs.Words.{name, numbered, head_word, reason_word, reason_of, tail_of, tail_word, last_word, refusal_word, reason_entry, entry_words, nth_entry, verdicts, refused, accepted, requested, fetched, let_go, got, received, rejected, blocked, planned, plain, counted};

use crate::{Call, ENTRIES, Entry, Head, Said, Tail};
use model::{Blocked, Fetch, NextRequest, Reason, Received, Refusal, Rejected, Request};

impl Call {
    pub(crate) fn name(self) -> [u8; 25]
        ensures { result ≡ name self }
    {
        match self {
            Call::Open => *b"open                     ",
            Call::MarkRequested => *b"mark_requested           ",
            Call::MarkOwnedFetch => *b"mark_owned_fetch         ",
            Call::MarkReceivedFrom => *b"mark_received_from       ",
            Call::RejectDelivery => *b"reject_delivery          ",
            Call::ExpirePending => *b"expire_pending           ",
            Call::RequeueForRetry => *b"requeue_for_retry        ",
            Call::ReleasePending => *b"release_pending          ",
            Call::RetireBefore => *b"retire_before            ",
            Call::RetainOwnedBy => *b"retain_owned_by          ",
            Call::ObserveBlocked => *b"observe_blocked          ",
            Call::ConfirmColdFrontHedge => *b"confirm_cold_front_hedge ",
            Call::ConfirmPrefixProbe => *b"confirm_prefix_probe     ",
            Call::SetFanoutEligiblePeers => *b"set_fanout_eligible_peers",
            Call::ClearPreferredPeer => *b"clear_preferred_peer     ",
            Call::NextPeerRequest => *b"next_peer_request        ",
            Call::Other(_) => *b"next_peer_request        ",
        }
    }
}

// By its number in a line of the script; the error is a number that is no call's.
impl TryFrom<u32> for Call {
    type Error = u32;

    ghost try_from_gives = { λ n r. MatchResult r (λ call. numbered n ≡ Some call) (λ e. (numbered n ≡ None) × (e ≡ n)) };

    fn try_from(n: u32) -> Result<Self, u32> {
        match n {
            0 => Ok(Call::Open),
            1 => Ok(Call::MarkRequested),
            2 => Ok(Call::MarkOwnedFetch),
            3 => Ok(Call::MarkReceivedFrom),
            4 => Ok(Call::RejectDelivery),
            5 => Ok(Call::ExpirePending),
            6 => Ok(Call::RequeueForRetry),
            7 => Ok(Call::ReleasePending),
            8 => Ok(Call::RetireBefore),
            9 => Ok(Call::RetainOwnedBy),
            10 => Ok(Call::ObserveBlocked),
            11 => Ok(Call::ConfirmColdFrontHedge),
            12 => Ok(Call::ConfirmPrefixProbe),
            13 => Ok(Call::SetFanoutEligiblePeers),
            14 => Ok(Call::ClearPreferredPeer),
            15 => Ok(Call::NextPeerRequest),
            _ => Err(n),
        }
    }
}

impl Head {
    pub(crate) fn word(self) -> [u8; 8]
        ensures { result ≡ head_word self }
    {
        match self {
            Head::Done => *b"done    ",
            Head::Refused => *b"refused ",
            Head::Asked => *b"asked   ",
            Head::Held => *b"held    ",
            Head::Staged => *b"staged  ",
            Head::NoRoom => *b"no room ",
            Head::LetGo => *b"let go  ",
            Head::GotIt => *b"got it  ",
            Head::GotItAnd => *b"got it, ",
            Head::Unasked => *b"unasked ",
            Head::NoBlame => *b"no blame",
            Head::Blames => *b"blames  ",
            Head::Evicts => *b"evicts  ",
            Head::Hedges => *b"hedges  ",
            Head::Planned => *b"planned ",
            Head::NoPlan => *b"no plan ",
        }
    }
}

// ---- reasons

fn reason_word(why: Reason) -> [u8; 11]
    ensures { result ≡ reason_word why }
{
    match why {
        Reason::Delivered => *b" delivered ",
        Reason::OwnerRejection => *b" rejected  ",
        Reason::Retry => *b" to retry  ",
        Reason::Released => *b" released  ",
        Reason::Retired => *b" retired   ",
        Reason::OwnerTimeOut => *b" timed out ",
        Reason::PassedOver => *b" skipped   ",
        Reason::SeatLost => *b" peer gone ",
        Reason::PrefixRaceLost => *b" race lost ",
        Reason::HedgeLost => *b" hedge lost",
    }
}

fn reason_entry(why: Reason) -> [u8; 33]
    ensures { result ≡ reason_entry why }
{
    match why {
        Reason::Delivered => *b"  let go: delivered              ",
        Reason::OwnerRejection => *b"  let go: rejected               ",
        Reason::Retry => *b"  let go: to be tried again      ",
        Reason::Released => *b"  let go: released               ",
        Reason::Retired => *b"  let go: retired                ",
        Reason::OwnerTimeOut => *b"  let go: its peer timed out     ",
        Reason::PassedOver => *b"  let go: skipped by its peer    ",
        Reason::SeatLost => *b"  let go: its peer is gone       ",
        Reason::PrefixRaceLost => *b"  let go: prefix race lost       ",
        Reason::HedgeLost => *b"  let go: hedge lost             ",
    }
}

// By its number in a report.
fn reason_of(n: u64) -> Option<Reason>
    ensures { result ≡ reason_of n }
{
    match n {
        1 => Some(Reason::Delivered),
        2 => Some(Reason::OwnerRejection),
        3 => Some(Reason::Retry),
        4 => Some(Reason::Released),
        5 => Some(Reason::Retired),
        6 => Some(Reason::OwnerTimeOut),
        7 => Some(Reason::PassedOver),
        8 => Some(Reason::SeatLost),
        9 => Some(Reason::PrefixRaceLost),
        10 => Some(Reason::HedgeLost),
        _ => None,
    }
}

impl Tail {
    fn word(self) -> [u8; 11]
        ensures { result ≡ tail_word self }
    {
        match self {
            Tail::Why(why) => reason_word(why),
            Tail::Because(r) => refusal_word(r),
            Tail::IsPending => *b" is pending",
            Tail::RoomLeft => *b" room left ",
            Tail::Full => *b" full      ",
            Tail::Discarded => *b" discarded ",
            Tail::Staller => *b" staller   ",
            Tail::Silent => *b" silent    ",
            Tail::Staged => *b" staged    ",
            Tail::ColdFront => *b" cold front",
        }
    }
}

// A tail, or blanks.
pub(crate) fn last_word(tail: Option<Tail>) -> [u8; 11]
    ensures { result ≡ last_word tail }
{
    match tail {
        Some(tail) => tail.word(),
        None => *b"           ",
    }
}

// Why a call is refused.
fn refusal_word(r: Refusal) -> [u8; 11]
    ensures { result ≡ refusal_word r }
{
    match r {
        Refusal::WordCount => *b" word count",
        Refusal::NotAWindow => *b" no window ",
        Refusal::ShortReport => *b" report    ",
        Refusal::Clock => *b" clock     ",
        Refusal::Settings => *b" settings  ",
        Refusal::Seats => *b" no seat   ",
        Refusal::Listed => *b" is pending",
        Refusal::Many => *b" over 256  ",
        Refusal::Body => *b" body size ",
        Refusal::ShortOutput => *b" list short",
        Refusal::Payload => *b" payload   ",
        Refusal::Chain => *b" chain list",
    }
}

impl Entry {
    // The lines of the page in their order; past its end the last.
    pub fn nth(k: usize) -> Entry
        ensures { result ≡ nth_entry k }
    {
        ENTRIES.get(k).copied().unwrap_or(Entry::Pending)
    }

    pub(crate) fn words(self) -> [u8; 33]
        ensures { result ≡ entry_words self }
    {
        match self {
            Entry::LetGo(why) => reason_entry(why),
            Entry::Opened => *b"  opened                         ",
            Entry::LetGoInAll => *b"  let go in all                  ",
            Entry::Pending => *b"  pending, as the window says    ",
        }
    }
}

// What is said of a book that adds up, and of one that does not.
pub fn verdict(right: bool) -> [u8; 74]
    ensures { result ≡ verdicts right }
{
    if right {
        return *b"The book adds up: what was opened is what was let go and what is pending.\n";
    }
    *b"THE BOOK DOES NOT ADD UP: what was opened is not let go, and not pending.\n"
}

// ---- answers

// How an answer ends by a word of its report: 1 to 10 are reasons. No report says another; those have the tails that follow, and past them the last.
fn tail_of(word: u64) -> Option<Tail>
    ensures { result ≡ tail_of word }
{
    match word {
        0..=10 => reason_of(word).map(Tail::Why),
        11 => Some(Tail::IsPending),
        12 => Some(Tail::RoomLeft),
        13 => Some(Tail::Full),
        14 => Some(Tail::Discarded),
        15 => Some(Tail::Staller),
        16 => Some(Tail::Silent),
        17 => Some(Tail::Staged),
        _ => Some(Tail::ColdFront),
    }
}

impl Said {
    // The refusal's number, and why it is one.
    pub(crate) fn refused(r: Refusal) -> Said
        ensures { result ≡ refused r }
    {
        Said::counted(Head::Refused, u64::from(r), Some(Tail::Because(r)))
    }

    // No number.
    fn plain(head: Head, tail: Option<Tail>) -> Said
        ensures { result ≡ plain head tail }
    {
        Said {
            head,
            number: None,
            tail,
        }
    }

    fn counted(head: Head, n: u64, tail: Option<Tail>) -> Said
        ensures { result ≡ counted head n tail }
    {
        Said {
            head,
            number: Some(n),
            tail,
        }
    }
}

pub fn accepted(a: Result<(), Refusal>) -> Result<Said, Refusal>
    ensures { result ≡ accepted a }
{
    a?;
    Ok(Said::plain(Head::Done, None))
}

// n blocks were in the list.
pub fn requested(a: Result<bool, Refusal>, n: u64) -> Result<Said, Refusal>
    ensures { result ≡ requested a n }
{
    let room = if a? { Tail::RoomLeft } else { Tail::Full };
    Ok(Said::counted(Head::Asked, n, Some(room)))
}

pub fn fetched(a: Result<Fetch, Refusal>) -> Result<Said, Refusal>
    ensures { result ≡ fetched a }
{
    Ok(match a? {
        Fetch::Held => Said::plain(Head::Held, Some(Tail::IsPending)),
        Fetch::Staged => Said::plain(Head::Staged, None),
        Fetch::Asked => Said::counted(Head::Asked, 1, None),
        Fetch::NoCapacity => Said::plain(Head::NoRoom, None),
    })
}

// Why the first place of the report was let go.
pub fn let_go(a: Result<u64, Refusal>, why: u64) -> Result<Said, Refusal>
    ensures { result ≡ let_go a why }
{
    let n = a?;
    Ok(Said::counted(Head::LetGo, n, tail_of(why)))
}

// A delivery whose report has n places.
fn got(n: u64, why: u64) -> Said
    ensures { result ≡ got n why }
{
    if n <= 1 {
        return Said::plain(Head::GotIt, None);
    }
    Said::counted(Head::GotItAnd, n - 1, tail_of(why))
}

// Why the second place of the report was let go.
pub fn received(a: Result<Received, Refusal>, why: u64) -> Result<Said, Refusal>
    ensures { result ≡ received a why }
{
    let d = a?;
    Ok(match d.height {
        None => Said::plain(Head::Unasked, None),
        Some(_) => got(d.places, why),
    })
}

pub fn rejected(a: Result<Rejected, Refusal>) -> Result<Said, Refusal>
    ensures { result ≡ rejected a }
{
    Ok(match a? {
        Rejected::ReleasedPending(n) => {
            Said::counted(Head::LetGo, n, Some(Tail::Why(Reason::OwnerRejection)))
        }
        Rejected::DiscardedUnsolicited => Said::plain(Head::Unasked, Some(Tail::Discarded)),
    })
}

pub fn blocked(a: Result<Blocked, Refusal>) -> Result<Said, Refusal>
    ensures { result ≡ blocked a }
{
    Ok(match a? {
        Blocked::NoDecision => Said::plain(Head::NoBlame, None),
        Blocked::BlameStaller(seat) => Said::counted(Head::Blames, seat, Some(Tail::Staller)),
        Blocked::BlamePendingTimeout(seat) => Said::counted(Head::Blames, seat, Some(Tail::Silent)),
        Blocked::EvictStaged(height, _, _) => {
            Said::counted(Head::Evicts, height, Some(Tail::Staged))
        }
        Blocked::HedgeColdFront(seat, _) => {
            Said::counted(Head::Hedges, seat, Some(Tail::ColdFront))
        }
    })
}

// How many blocks are planned, and why the first place of the report was let go: planning sweeps.
pub fn planned(a: Result<NextRequest, Refusal>, why: u64) -> Result<Said, Refusal>
    ensures { result ≡ planned a why }
{
    let next = a?;
    Ok(match next.request {
        None => Said::plain(Head::NoPlan, tail_of(why)),
        Some(Request { count, .. }) => Said::counted(Head::Planned, count, tail_of(why)),
    })
}

// Which call a recorded number is: the numbers of crates/kofudile/API.md, where 49 asks for the hashes of the plan and 48 for its numbers.
ghost use Rattle.std.specs.Prelude.{◌≡◌};
ghost use Rattle.lend.specs.Cases.{pick};
ghost use Rattle.replayed.specs.Kinds.{kind_of, calls_numbered, other_call, queries_numbered, other_query};

// A call, by what it answers.
#[derive(Clone, Copy)]
pub enum Kind {
    Done(Doing),
    Request,
    Fetch,
    Receive,
    Reject,
    LetGo(Letting),
    Look,
    Ask(Asked),
}

// The calls that are done or refused.
#[derive(Clone, Copy)]
pub enum Doing {
    Open,
    CreditDuplicateDelivery,
    MarkPeerUnresponsive,
    ConfirmPrefixProbe,
    ConfirmColdFrontHedge,
    SetFanoutEligiblePeers,
    ClearPreferredPeer,
}

// The calls that answer only how much they let go.
#[derive(Clone, Copy)]
pub enum Letting {
    CreditDeliveryFrom,
    ExpirePending,
    RequeueForRetry,
    ReleasePending,
    RetireBefore,
    RetainOwnedBy,
}

// The queries, by what they answer.
#[derive(Clone, Copy)]
pub enum Asked {
    Number(AsksNumber),
    Truth(AsksTruth),
    Pair(AsksPair),
    PerhapsPair(AsksPerhapsPair),
    Perhaps(AsksPerhaps),
    Plan(PlanPart),
}

#[derive(Clone, Copy)]
pub enum AsksNumber {
    PendingLen,
    PendingBytes,
    EffectivePeerInflight,
    ActiveDownloadingPeers,
    StallDecayFloor,
    RequestCursor,
    EwmaBlockBytes,
    EffectiveOwnerTimeout,
    StallTimeout,
    MaxPendingBlocks,
    MinPeersForFanout,
    PendingCountFor,
}

#[derive(Clone, Copy)]
pub enum AsksTruth {
    FanoutActive,
    HasRequestCapacity,
    IsDownloading,
    ContainsPending,
    HedgeOffered,
    ProbeOffered,
    PeerHasExpiredPending,
    PeerInStallerCooldown,
}

#[derive(Clone, Copy)]
pub enum AsksPair {
    PendingHighWater,
    ExpiredPendingCapacity,
}

#[derive(Clone, Copy)]
pub enum AsksPerhapsPair {
    StallingPeer,
    ComputeRequestCapacity,
}

#[derive(Clone, Copy)]
pub enum AsksPerhaps {
    PreferredPeer,
    PendingOwner,
    OwnerQueueStart,
    FrontIntervalEwmaMs,
    ActivePrefixProbeStartedAt,
}

// A plan's numbers, or its hashes.
#[derive(Clone, Copy)]
pub enum PlanPart {
    Numbers,
    Hashes,
}

// 1 to 18, and 0, which is no call and is made as 18.
fn call_kind(n: u64) -> Kind
    ensures { result ≡ pick calls_numbered other_call n }
{
    match n {
        1 => Kind::Done(Doing::Open),
        2 => Kind::Request,
        3 => Kind::Fetch,
        4 => Kind::Receive,
        5 => Kind::LetGo(Letting::CreditDeliveryFrom),
        6 => Kind::Done(Doing::CreditDuplicateDelivery),
        7 => Kind::Reject,
        8 => Kind::LetGo(Letting::ExpirePending),
        9 => Kind::LetGo(Letting::RequeueForRetry),
        10 => Kind::LetGo(Letting::ReleasePending),
        11 => Kind::LetGo(Letting::RetireBefore),
        12 => Kind::LetGo(Letting::RetainOwnedBy),
        13 => Kind::Done(Doing::MarkPeerUnresponsive),
        14 => Kind::Done(Doing::ConfirmPrefixProbe),
        15 => Kind::Done(Doing::ConfirmColdFrontHedge),
        16 => Kind::Look,
        17 => Kind::Done(Doing::SetFanoutEligiblePeers),
        _ => Kind::Done(Doing::ClearPreferredPeer),
    }
}

// 19 to 49, and those above, which are no call and are made as 49.
fn query_kind(n: u64) -> Asked
    ensures { result ≡ pick queries_numbered other_query n }
{
    match n {
        19 => Asked::Number(AsksNumber::PendingLen),
        20 => Asked::Number(AsksNumber::PendingBytes),
        21 => Asked::Number(AsksNumber::EffectivePeerInflight),
        22 => Asked::Number(AsksNumber::ActiveDownloadingPeers),
        23 => Asked::Number(AsksNumber::StallDecayFloor),
        24 => Asked::Number(AsksNumber::RequestCursor),
        25 => Asked::Number(AsksNumber::EwmaBlockBytes),
        26 => Asked::Number(AsksNumber::EffectiveOwnerTimeout),
        27 => Asked::Number(AsksNumber::StallTimeout),
        28 => Asked::Number(AsksNumber::MaxPendingBlocks),
        29 => Asked::Number(AsksNumber::MinPeersForFanout),
        30 => Asked::Truth(AsksTruth::FanoutActive),
        31 => Asked::Truth(AsksTruth::HasRequestCapacity),
        32 => Asked::Number(AsksNumber::PendingCountFor),
        33 => Asked::Truth(AsksTruth::IsDownloading),
        34 => Asked::Truth(AsksTruth::ContainsPending),
        35 => Asked::Truth(AsksTruth::HedgeOffered),
        36 => Asked::Truth(AsksTruth::ProbeOffered),
        37 => Asked::Truth(AsksTruth::PeerHasExpiredPending),
        38 => Asked::Truth(AsksTruth::PeerInStallerCooldown),
        39 => Asked::Pair(AsksPair::PendingHighWater),
        40 => Asked::Pair(AsksPair::ExpiredPendingCapacity),
        41 => Asked::PerhapsPair(AsksPerhapsPair::StallingPeer),
        42 => Asked::PerhapsPair(AsksPerhapsPair::ComputeRequestCapacity),
        43 => Asked::Perhaps(AsksPerhaps::PreferredPeer),
        44 => Asked::Perhaps(AsksPerhaps::PendingOwner),
        45 => Asked::Perhaps(AsksPerhaps::OwnerQueueStart),
        46 => Asked::Perhaps(AsksPerhaps::FrontIntervalEwmaMs),
        47 => Asked::Perhaps(AsksPerhaps::ActivePrefixProbeStartedAt),
        48 => Asked::Plan(PlanPart::Numbers),
        _ => Asked::Plan(PlanPart::Hashes),
    }
}

impl From<u64> for Kind {
    ghost from_gives = { λ n k. k ≡ kind_of n };

    #[tactic(auto, using(std::proofs::lemmas::Bool::Decides::nat_tests), unfolding(crate::specs::Kinds::kind_of))]
    fn from(n: u64) -> Kind {
        if n < 19 {
            return call_kind(n);
        }
        Kind::Ask(query_kind(n))
    }
}

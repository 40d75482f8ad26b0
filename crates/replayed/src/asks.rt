// The queries. One call in each arm, and what they say is made a row after it.
ghost use Rattle.std.specs.Prelude.{◌≡◌, []};
ghost use Rattle.model.specs.Refusals.{queries};
ghost use Rattle.model.specs.Queries.{reads, probe_plan};
ghost use Rattle.model.specs.Perform.{perform};
ghost use Rattle.model.specs.Says.{number_says, truth_says, pair_says, perhaps_says, perhaps_pair_says};
ghost use Rattle.replayed.specs.Calls.{number_query, truth_query, pair_query, perhaps_query, perhaps_pair_query, plan_part, question};

use crate::kinds::{
    Asked, AsksNumber, AsksPair, AsksPerhaps, AsksPerhapsPair, AsksTruth, PlanPart,
};
use model::Refusal;
use recorded::answers;
use recorded::stream::Place;

fn number(words: &[u64], a: Place, kind: AsksNumber) -> Result<u64, Refusal>
    ensures { number_says result ≡ (perform (queries (number_query a.entry.numbers.now a.entry.at kind)) words.now []).answer }
{
    match kind {
        AsksNumber::PendingLen => window_queries::pending_len(words),
        AsksNumber::PendingBytes => window_queries::pending_bytes(words),
        AsksNumber::EffectivePeerInflight => window_queries::effective_peer_inflight(words),
        AsksNumber::ActiveDownloadingPeers => window_queries::active_downloading_peers(words),
        AsksNumber::StallDecayFloor => window_queries::stall_decay_floor(words),
        AsksNumber::RequestCursor => window_queries::request_cursor(words),
        AsksNumber::EwmaBlockBytes => window_queries::ewma_block_bytes(words),
        AsksNumber::EffectiveOwnerTimeout => window_queries::effective_owner_timeout(words),
        AsksNumber::StallTimeout => window_queries::stall_timeout(words),
        AsksNumber::MaxPendingBlocks => window_queries::max_pending_blocks(words),
        AsksNumber::MinPeersForFanout => window_queries::min_peers_for_fanout(words),
        AsksNumber::PendingCountFor => window_queries::pending_count_for(words, a.nth(0)),
    }
}

fn truth(words: &[u64], a: Place, kind: AsksTruth) -> Result<bool, Refusal>
    ensures { truth_says result ≡ (perform (queries (truth_query a.entry.numbers.now a.entry.at kind)) words.now []).answer }
{
    match kind {
        AsksTruth::FanoutActive => window_queries::fanout_active(words),
        AsksTruth::HasRequestCapacity => {
            window_queries::has_request_capacity(words, a.nth(0), a.nth(1))
        }
        AsksTruth::IsDownloading => window_queries::is_downloading(words, a.nth(0)),
        AsksTruth::ContainsPending => window_queries::contains_pending(words, a.hash(0)),
        AsksTruth::HedgeOffered => window_queries::hedge_offered(words, a.nth(0), a.hash(1)),
        AsksTruth::ProbeOffered => window_queries::probe_offered(words, a.nth(0), a.hash(1)),
        AsksTruth::PeerHasExpiredPending => {
            window_queries::peer_has_expired_pending(words, a.nth(0), a.nth(1))
        }
        AsksTruth::PeerInStallerCooldown => {
            window_queries::peer_in_staller_cooldown(words, a.nth(0), a.nth(1))
        }
    }
}

fn pair(words: &[u64], a: Place, kind: AsksPair) -> Result<(u64, u64), Refusal>
    ensures { pair_says result ≡ (perform (queries (pair_query a.entry.numbers.now a.entry.at kind)) words.now []).answer }
{
    match kind {
        AsksPair::PendingHighWater => window_queries::pending_high_water(words),
        AsksPair::ExpiredPendingCapacity => {
            window_queries::expired_pending_capacity(words, a.nth(0))
        }
    }
}

fn perhaps_pair(
    words: &[u64],
    a: Place,
    kind: AsksPerhapsPair,
) -> Result<Option<(u64, u64)>, Refusal>
    ensures { perhaps_pair_says result ≡ (perform (queries (perhaps_pair_query a.entry.numbers.now a.entry.at kind)) words.now []).answer }
{
    match kind {
        AsksPerhapsPair::StallingPeer => window_queries::stalling_peer(words),
        AsksPerhapsPair::ComputeRequestCapacity => {
            window_queries::compute_request_capacity(words, a.nth(0), a.nth(1), a.nth(2))
        }
    }
}

fn perhaps(words: &[u64], a: Place, kind: AsksPerhaps) -> Result<Option<u64>, Refusal>
    ensures { perhaps_says result ≡ (perform (queries (perhaps_query a.entry.numbers.now a.entry.at kind)) words.now []).answer }
{
    match kind {
        AsksPerhaps::PreferredPeer => window_queries::preferred_peer(words),
        AsksPerhaps::PendingOwner => window_queries::pending_owner(words, a.hash(0)),
        AsksPerhaps::OwnerQueueStart => window_queries::owner_queue_start(words, a.nth(0)),
        AsksPerhaps::FrontIntervalEwmaMs => window_queries::front_interval_ewma_ms(words),
        AsksPerhaps::ActivePrefixProbeStartedAt => {
            window_queries::active_prefix_probe_started_at(words)
        }
    }
}

// A plan's numbers, or its hashes.
#[tactic(auto, using(crate::specs::Told::plan_told, crate::specs::Told::hashes_told))]
fn plan(words: &[u64], part: PlanPart) -> [u64; 32]
    ensures { result ≡ plan_part part (perform (queries (reads probe_plan)) words.now []).answer }
{
    let p = window_queries::prefix_probe_plan(words);
    match part {
        PlanPart::Numbers => answers::plan(p),
        PlanPart::Hashes => p.hashes,
    }
}

pub(crate) fn query(words: &[u64], a: Place, kind: Asked) -> [u64; 32]
    ensures { result ≡ (question a.entry.numbers.now a.entry.at kind).row_of (perform (queries (question a.entry.numbers.now a.entry.at kind).query) words.now []).answer }
{
    match kind {
        Asked::Number(k) => answers::number(number(words, a, k)),
        Asked::Truth(k) => answers::truth(truth(words, a, k)),
        Asked::Pair(k) => answers::pair(pair(words, a, k)),
        Asked::PerhapsPair(k) => answers::perhaps_pair(perhaps_pair(words, a, k)),
        Asked::Perhaps(k) => answers::perhaps(perhaps(words, a, k)),
        Asked::Plan(k) => plan(words, k),
    }
}

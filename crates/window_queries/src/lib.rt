// THE PUBLIC QUERIES: each with its refusals, on the lent words, which it does not write. No function has a `requires`.
#![tactic(auto)]

ghost use Rattle.std.specs.Prelude.{◌≡◌, []};
ghost use Rattle.model.specs.Refusals.{queries};
ghost use Rattle.model.specs.Queries.{reads, perhaps, source_values, probe_values, preferred_peer, probe_plan, probe_start, front_interval_ewma_ms, asks_owner, asks_queue_start, asks_compute_capacity, asks_probe_offered, pending_len, pending_bytes, asks_expired_capacity, stall_timeout, max_pending_blocks, min_peers_for_fanout, fanout_active, pending_high_water, stalling_peer, peer_inflight, active_peers, decay_floor, request_cursor, ewma_block_bytes, asks_request_capacity, asks_contains, asks_count_for, asks_downloading, owner_timeout, asks_hedge_offered, asks_has_expired, asks_cooldown};
ghost use Rattle.model.specs.Perform.{perform};
ghost use Rattle.model.specs.Says.{number_says, pair_says, perhaps_says, perhaps_pair_says, truth_says};
ghost use Rattle.model.specs.Lists.{pad};
ghost use Rattle.plans.specs.Answers.{planned_part, plan_answer_says};

use model::{Hash, PrefixProbe, Refusal, limits, sizes};
use plans::PlanAnswer;

// How many blocks are pending.
pub fn pending_len(words: &[u64]) -> Result<u64, Refusal>
    ensures { number_says result ≡ (perform (queries (reads pending_len)) words.now []).answer }
{
    let words = admission::admitted(words, None, None, true)?;
    Ok(state_queue::pending_count(words) as u64)
}

// Their estimates in bytes, all together.
pub fn pending_bytes(words: &[u64]) -> Result<u64, Refusal>
    ensures { number_says result ≡ (perform (queries (reads pending_bytes)) words.now []).answer }
{
    let words = admission::admitted(words, None, None, true)?;
    Ok(state::get_total(words))
}

// How many blocks a peer may have in flight.
pub fn effective_peer_inflight(words: &[u64]) -> Result<u64, Refusal>
    ensures { number_says result ≡ (perform (queries (reads peer_inflight)) words.now []).answer }
{
    let words = admission::admitted(words, None, None, true)?;
    Ok(queries::effective_peer_inflight(words))
}

// How many seats have blocks pending.
pub fn active_downloading_peers(words: &[u64]) -> Result<u64, Refusal>
    ensures { number_says result ≡ (perform (queries (reads active_peers)) words.now []).answer }
{
    let words = admission::admitted(words, None, None, true)?;
    Ok(state::active_peers(words))
}

// The least that the stall wait decays to.
pub fn stall_decay_floor(words: &[u64]) -> Result<u64, Refusal>
    ensures { number_says result ≡ (perform (queries (reads decay_floor)) words.now []).answer }
{
    let words = admission::admitted(words, None, None, true)?;
    Ok(queries::stall_decay_floor(words))
}

// The frontier: the next height to ask for.
pub fn request_cursor(words: &[u64]) -> Result<u64, Refusal>
    ensures { number_says result ≡ (perform (queries (reads request_cursor)) words.now []).answer }
{
    let words = admission::admitted(words, None, None, true)?;
    Ok(state::get_frontier(words))
}

// The mean of a block in bytes.
pub fn ewma_block_bytes(words: &[u64]) -> Result<u64, Refusal>
    ensures { number_says result ≡ (perform (queries (reads ewma_block_bytes)) words.now []).answer }
{
    let words = admission::admitted(words, None, None, true)?;
    Ok(state::get_mean(words))
}

// How many blocks are pending with a seat.
pub fn pending_count_for(words: &[u64], seat: u64) -> Result<u64, Refusal>
    ensures { number_says result ≡ (perform (queries (asks_count_for seat)) words.now []).answer }
{
    let words = admission::admitted(words, None, None, seat <= limits::MAX_SEAT)?;
    Ok(state_queue::pending_count_for(words, seat))
}

// Whether more may be asked for.
pub fn has_request_capacity(
    words: &[u64],
    byte_headroom: u64,
    count_headroom: u64,
) -> Result<bool, Refusal>
    ensures { truth_says result ≡ (perform (queries (asks_request_capacity byte_headroom count_headroom)) words.now []).answer }
{
    let words = admission::admitted(words, None, None, true)?;
    Ok(queries::has_request_capacity(words, byte_headroom, count_headroom))
}

// Whether the block of a hash is pending.
pub fn contains_pending(words: &[u64], h: Hash) -> Result<bool, Refusal>
    ensures { truth_says result ≡ (perform (queries (asks_contains h)) words.now []).answer }
{
    let words = admission::admitted(words, None, None, true)?;
    Ok(queries::contains_pending(words, h))
}

// Whether a seat has blocks pending.
pub fn is_downloading(words: &[u64], seat: u64) -> Result<bool, Refusal>
    ensures { truth_says result ≡ (perform (queries (asks_downloading seat)) words.now []).answer }
{
    let words = admission::admitted(words, None, None, seat <= limits::MAX_SEAT)?;
    Ok(queries::is_downloading(words, seat as usize))
}

// How long an owner may take: by the window's own active seats.
pub fn effective_owner_timeout(words: &[u64]) -> Result<u64, Refusal>
    ensures { number_says result ≡ (perform (queries (reads owner_timeout)) words.now []).answer }
{
    let words = admission::admitted(words, None, None, true)?;
    Ok(sweep::timeout_of(words))
}

// Whether a seat races for this hash as the alternate of a cold front.
pub fn hedge_offered(words: &[u64], seat: u64, h: Hash) -> Result<bool, Refusal>
    ensures { truth_says result ≡ (perform (queries (asks_hedge_offered seat h)) words.now []).answer }
{
    let words = admission::admitted(words, None, None, seat <= limits::MAX_SEAT)?;
    Ok(cold_front::hedge_offered(words, seat, h))
}

// Whether a seat has blocks that are past its time.
pub fn peer_has_expired_pending(words: &[u64], seat: u64, clock: u64) -> Result<bool, Refusal>
    ensures { truth_says result ≡ (perform (queries (asks_has_expired seat clock)) words.now []).answer }
{
    let words = admission::admitted(words, None, Some(clock), seat <= limits::MAX_SEAT)?;
    Ok(sweep::peer_has_expired_pending(words, seat as usize, clock))
}

// Whether the key of a seat is cooling.
pub fn peer_in_staller_cooldown(words: &[u64], seat: u64, clock: u64) -> Result<bool, Refusal>
    ensures { truth_says result ≡ (perform (queries (asks_cooldown seat clock)) words.now []).answer }
{
    let words = admission::admitted(words, None, Some(clock), seat <= limits::MAX_SEAT)?;
    Ok(state_cooling::in_cooldown(words, seat as usize, clock))
}

// The most that was pending: blocks, and bytes.
pub fn pending_high_water(words: &[u64]) -> Result<(u64, u64), Refusal>
    ensures { pair_says result ≡ (perform (queries (reads pending_high_water)) words.now []).answer }
{
    let words = admission::admitted(words, None, None, true)?;
    let x = state::get_high_blocks(words);
    let y = state::get_high_bytes(words);
    Ok((x, y))
}

// The key of the stalling seat, and since when.
pub fn stalling_peer(words: &[u64]) -> Result<Option<(u64, u64)>, Refusal>
    ensures { perhaps_pair_says result ≡ (perform (queries (reads stalling_peer)) words.now []).answer }
{
    let words = admission::admitted(words, None, None, true)?;
    Ok(queries::stalling_peer(words))
}

// The stall wait.
pub fn stall_timeout(words: &[u64]) -> Result<u64, Refusal>
    ensures { number_says result ≡ (perform (queries (reads stall_timeout)) words.now []).answer }
{
    let words = admission::admitted(words, None, None, true)?;
    let p = state::get_pace(words);
    Ok(p.wait)
}

// The setting of that name.
pub fn max_pending_blocks(words: &[u64]) -> Result<u64, Refusal>
    ensures { number_says result ≡ (perform (queries (reads max_pending_blocks)) words.now []).answer }
{
    let words = admission::admitted(words, None, None, true)?;
    let p = state::get_settings(words);
    Ok(p.max_pending_blocks)
}

// The setting of that name.
pub fn min_peers_for_fanout(words: &[u64]) -> Result<u64, Refusal>
    ensures { number_says result ≡ (perform (queries (reads min_peers_for_fanout)) words.now []).answer }
{
    let words = admission::admitted(words, None, None, true)?;
    let p = state::get_settings(words);
    Ok(p.min_peers_for_fanout)
}

// Whether requests fan out.
pub fn fanout_active(words: &[u64]) -> Result<bool, Refusal>
    ensures { truth_says result ≡ (perform (queries (reads fanout_active)) words.now []).answer }
{
    let words = admission::admitted(words, None, None, true)?;
    let f = state::get_fanout(words);
    Ok(f.engaged)
}

// The forecast: blocks and bytes that expired owners hold.
pub fn expired_pending_capacity(words: &[u64], clock: u64) -> Result<(u64, u64), Refusal>
    ensures { pair_says result ≡ (perform (queries (asks_expired_capacity clock)) words.now []).answer }
{
    let words = admission::admitted(words, None, Some(clock), true)?;
    let f = sweep::expired_pending_capacity(words, clock);
    Ok((f.blocks, f.bytes))
}

// ---- what may be missing

// A stored number, 0 for none and n + 1 for n.
fn perhaps_stored(x: u64) -> Option<u64>
    ensures { source_values result ≡ perhaps x }
{
    x.checked_sub(1)
}

fn started_of(p: Option<PrefixProbe>) -> Option<u64>
    ensures { source_values result ≡ probe_values p }
{
    p.map(|x| x.started)
}

// The seat that is asked first, where there is one.
pub fn preferred_peer(words: &[u64]) -> Result<Option<u64>, Refusal>
    ensures { perhaps_says result ≡ (perform (queries (reads preferred_peer)) words.now []).answer }
{
    let words = admission::admitted(words, None, None, true)?;
    Ok(state::get_preferred(words))
}

// The seat that the block of a hash is pending with, if it is pending.
pub fn pending_owner(words: &[u64], h: Hash) -> Result<Option<u64>, Refusal>
    ensures { perhaps_says result ≡ (perform (queries (asks_owner h)) words.now []).answer }
{
    let words = admission::admitted(words, None, None, true)?;
    Ok(queries::pending_owner(words, h))
}

// When the prefix probe started, if one runs.
pub fn active_prefix_probe_started_at(words: &[u64]) -> Result<Option<u64>, Refusal>
    ensures { perhaps_says result ≡ (perform (queries (reads probe_start)) words.now []).answer }
{
    let words = admission::admitted(words, None, None, true)?;
    Ok(started_of(state_races::get_probe(words)))
}

// The mean time between fronts, once there was one.
pub fn front_interval_ewma_ms(words: &[u64]) -> Result<Option<u64>, Refusal>
    ensures { perhaps_says result ≡ (perform (queries (reads front_interval_ewma_ms)) words.now []).answer }
{
    let words = admission::admitted(words, None, None, true)?;
    let p = state::get_pace(words);
    Ok(perhaps_stored(p.mean))
}

// Since when a seat has blocks pending, if it has.
pub fn owner_queue_start(words: &[u64], seat: u64) -> Result<Option<u64>, Refusal>
    ensures { perhaps_says result ≡ (perform (queries (asks_queue_start seat)) words.now []).answer }
{
    let words = admission::admitted(words, None, None, seat <= limits::MAX_SEAT)?;
    let t = state::start_of(words, seat as usize);
    Ok(perhaps_stored(t))
}

// How many blocks, and bytes, may be asked of a seat at once, if any.
pub fn compute_request_capacity(
    words: &[u64],
    source: u64,
    byte_headroom: u64,
    count_headroom: u64,
) -> Result<Option<(u64, u64)>, Refusal>
    ensures { perhaps_pair_says result ≡ (perform (queries (asks_compute_capacity source byte_headroom count_headroom)) words.now []).answer }
{
    let words = admission::admitted(words, None, None, source <= limits::MAX_SEAT)?;
    Ok(queries::compute_request_capacity(words, source, byte_headroom, count_headroom))
}

// Whether a seat races for this hash in the prefix probe.
pub fn probe_offered(words: &[u64], source: u64, h: Hash) -> Result<bool, Refusal>
    ensures { truth_says result ≡ (perform (queries (asks_probe_offered source h)) words.now []).answer }
{
    let words = admission::admitted(words, None, None, source <= limits::MAX_SEAT)?;
    Ok(probe_plan::probe_offered(words, source, h))
}

// The plan of a prefix probe, if any: owner, number of hashes, end height, and the words of the hashes, 0 after them.
pub fn prefix_probe_plan(words: &[u64]) -> PlanAnswer
    ensures { (plan_answer_says result ≡ (perform (queries (reads probe_plan)) words.now []).answer)
        × (result.hashes ≡ pad 32 0 (planned_part result)) }
{
    match admission::admitted(words, None, None, true) {
        Err(r) => PlanAnswer {
            plan: Err(r),
            hashes: [0; sizes::PLANNED_WORDS],
        },
        Ok(words) => probe_hashes::prefix_probe_plan(words),
    }
}

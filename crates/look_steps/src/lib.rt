// SPECIFICATION 7.16: the stuck frontier, the stall and the pending timeout, in words that hold a window. Contracts as in `state`; `Sound` is what
// the arithmetic asks.
#![tactic(auto)]

ghost use Rattle.std.specs.Prelude.{◌≡◌, ◌&&◌, ◌<◌, ◌≤◌, Some, None};
ghost use Rattle.model.specs.Numbers.{max_clock, max_height, max_seat};
ghost use Rattle.model.specs.Layout.{window_of};
ghost use Rattle.model.specs.Window.{with_stuck, with_stall, with_pace, with_observation};
ghost use Rattle.model.specs.Records.{found};
ghost use Rattle.model.specs.Time.{active, owner_download_expired};
ghost use Rattle.model.specs.Cooling.{key_of, mark_peer_unresponsive};
ghost use Rattle.model.specs.Observation.{blame, advance_apply_side_stuck, evict_says, stall_at, advance_stall, still_owned, timeout_by, advance_pending_timeout};
ghost use Rattle.laws.specs.Sound.{Sound};
ghost use Rattle.laws.specs.Whole.{Whole, Holds};
ghost use Rattle.watch.specs.Answers.{blocked_of};
ghost use Rattle.look_steps.specs.Steps.{Blames};

use model::{Blocked, Entry, Hash, Observation, Pace, StallEpisode, Words};

// ---- the stuck frontier

// `advance_apply_side_stuck`, and its eviction as an answer.
pub fn advance_apply_side_stuck(
    words: &mut Words,
    next: u64,
    frontier: Option<Hash>,
    busy: bool,
    clock: u64,
) -> Blocked
    requires { Whole words.old × Sound clock (window_of words.old) × (next ≤ max_height) }
    ensures { Holds (with_stuck (advance_apply_side_stuck next frontier busy clock (window_of words.old)).stuck (window_of words.old)) words.new × (result ≡ blocked_of (evict_says next (advance_apply_side_stuck next frontier busy clock (window_of words.old)).evicted)) }
{
    let stuck = state::get_stuck(words);
    let b = state::get_settings(words);
    let step = watch::apply_side_stuck(stuck, b.received_timeout, next, frontier, busy, clock);
    let left = step.stuck;
    let answer = step.answer;
    state::set_stuck(words, left);
    answer
}

// ---- the stall

// The episode ends, the wait is widened, and the owner is noted as unresponsive.
fn end_stall(words: &mut Words, widened: Pace, owner: usize, clock: u64)
    requires { Whole words.old × (owner < 256) × (clock ≤ max_clock) × (key_of owner (window_of words.old) ≤ max_seat) }
    ensures { Holds (mark_peer_unresponsive owner clock (with_pace widened (with_stall None (window_of words.old)))) words.new }
{
    state::set_stall(words, None);
    state::set_pace(words, widened);
    state_cooling::mark_peer_unresponsive(words, owner, clock);
}

// `stall_at`: an episode as old as the wait in force fires.
fn stall_at(words: &mut Words, e: Entry, clock: u64) -> Option<u64>
    requires { Whole words.old × Sound clock (window_of words.old) × (e.owner ≤ max_seat) }
    ensures { Blames (stall_at e clock (window_of words.old)) words.new result }
{
    let b = state::get_settings(words);
    let p = state::get_pace(words);
    let s = state::get_stall(words);
    let since = watch::stalled_since(s, e, clock);
    let wait = pace::effective_stall_timeout(b, p);
    let waited = clock.saturating_sub(since);
    let owner = e.owner;
    if waited < wait {
        let h = e.hash;
        state::set_stall(
            words,
            Some(StallEpisode {
                owner,
                front: h,
                since,
            }),
        );
        return None;
    }
    let widened = lent_pace::lend_at_blame(p, b);
    end_stall(words, widened, owner as usize, clock);
    Some(owner)
}

// `advance_stall`: a missing front, or one that does not block, ends the step and clears the episode.
pub fn advance_stall(
    words: &mut Words,
    next: u64,
    staged: u64,
    highest: Option<u64>,
    clock: u64,
) -> Option<u64>
    requires { Whole words.old × Sound clock (window_of words.old) }
    ensures { Blames (advance_stall next staged highest clock (window_of words.old)) words.new result }
{
    let lowest = state_queue::lowest(words);
    let Some(e) = lowest else {
        state::set_stall(words, None);
        return None;
    };
    let b = state::get_settings(words);
    if watch::blocks(next, staged, highest, e, b) {
        return stall_at(words, e, clock);
    }
    state::set_stall(words, None);
    None
}

// ---- the pending timeout

// Whether an armed observation's entry is still its owner's, and the owner expired.
fn still_late(words: &Words, owner: u64, h: Hash, clock: u64) -> bool
    requires { Whole words.now × Sound clock (window_of words.now) × (owner ≤ max_seat) }
    ensures { result ≡ (still_owned (found h (window_of words.now).queue.pending) owner && owner_download_expired owner (active (window_of words.now)) clock (window_of words.now)) }
{
    let place = state_queue::find(words, h);
    let Ok(at) = place else {
        return false;
    };
    let e = state_queue::entry_at(words, at);
    if e.owner != owner {
        return false;
    }
    expiry::owner_expired(words, owner as usize, clock)
}

// The observation is spent on a blame.
fn blame_late(words: &mut Words, owner: u64, clock: u64) -> Option<u64>
    requires { Whole words.old × Sound clock (window_of words.old) × (owner ≤ max_seat) }
    ensures { Blames (blame (mark_peer_unresponsive owner clock (with_observation Observation.Unarmed (window_of words.old))) (Some owner)) words.new result }
{
    let source = owner as usize;
    state::set_observation(words, Observation::Unarmed);
    state_cooling::mark_peer_unresponsive(words, source, clock);
    Some(owner)
}

// `timeout_by` of an armed observation: it blames or ends.
fn spend_armed(words: &mut Words, owner: u64, h: Hash, clock: u64) -> Option<u64>
    requires { Whole words.old × Sound clock (window_of words.old) × (owner ≤ max_seat) }
    ensures { Blames (timeout_by (Observation.Armed owner h) clock (window_of words.old)) words.new result }
{
    if still_late(words, owner, h, clock) {
        return blame_late(words, owner, clock);
    }
    let spent = Observation::Unarmed;
    state::set_observation(words, spent);
    None
}

// `timeout_by` without an observation: the lowest entry of an expired owner arms one.
fn arm_lowest(words: &mut Words, clock: u64) -> Option<u64>
    requires { Whole words.old × Sound clock (window_of words.old) }
    ensures { Blames (timeout_by Observation.Unarmed clock (window_of words.old)) words.new result }
{
    let lowest = expiry::lowest_expired(words, clock);
    let armed = watch::armed_by(lowest);
    state::set_observation(words, armed);
    None
}

// `advance_pending_timeout`
pub fn advance_pending_timeout(words: &mut Words, clock: u64) -> Option<u64>
    requires { Whole words.old × Sound clock (window_of words.old) }
    ensures { Blames (advance_pending_timeout clock (window_of words.old)) words.new result }
{
    let observation = state::get_observation(words);
    match observation {
        Observation::Unarmed => arm_lowest(words, clock),
        Observation::Swept(owner, _) => blame_late(words, owner, clock),
        Observation::Armed(owner, h) => spend_armed(words, owner, h, clock),
    }
}

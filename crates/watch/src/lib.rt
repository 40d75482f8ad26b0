// SPECIFICATION 7.16: the rules of a look, by value.
#![tactic(auto)]

ghost use Rattle.std.specs.Prelude.{◌≡◌, ◌≤◌};
ghost use Rattle.model.specs.Numbers.{max_duration};
ghost use Rattle.model.specs.Window.{Window};
ghost use Rattle.model.specs.Observation.{stuck_anew, stuck_still, evicted_by, advance_apply_side_stuck, is_above, blocks, stalled_since, armed_by};
ghost use Rattle.watch.specs.Answers.{stepped, timeout_answer};

use model::{Blocked, Entry, Hash, Observation, Settings, StallEpisode, StuckFrontier};

// What the stuck step leaves, and what it answers.
#[derive(Clone, Copy)]
pub struct Stepped {
    pub stuck: Option<StuckFrontier>,
    pub answer: Blocked,
}

// ---- the stuck frontier

// `stuck_anew`
fn stuck_anew(height: u64, h: Hash, busy: bool, clock: u64) -> Option<StuckFrontier>
    ensures { result ≡ stuck_anew height h busy clock }
{
    if busy {
        return Some(StuckFrontier {
            height,
            front: h,
            since: clock,
        });
    }
    None
}

// `stuck_still`
fn stuck_still(
    s: Option<StuckFrontier>,
    height: u64,
    h: Hash,
    busy: bool,
    clock: u64,
) -> Option<StuckFrontier>
    ensures { result ≡ stuck_still s height h busy clock }
{
    let Some(f) = s else {
        return stuck_anew(height, h, busy, clock);
    };
    if hash::same_both(f.height, height, f.front, h) {
        return s;
    }
    stuck_anew(height, h, busy, clock)
}

// `evicted_by`: suppressed for the bound or longer, it is evicted and counts anew.
fn evicted_by(s: Option<StuckFrontier>, height: u64, h: Hash, bound: u64, clock: u64) -> Stepped
    ensures { result ≡ stepped height (evicted_by s h bound clock) }
{
    let Some(f) = s else {
        return Stepped {
            stuck: None,
            answer: Blocked::NoDecision,
        };
    };
    let suppressed = clock.saturating_sub(f.since);
    if suppressed < bound {
        return Stepped {
            stuck: s,
            answer: Blocked::NoDecision,
        };
    }
    Stepped {
        stuck: Some(StuckFrontier { since: clock, ..f }),
        answer: Blocked::EvictStaged(height, h, suppressed),
    }
}

// `advance_apply_side_stuck` of a window with this stuck frontier and received timeout.
pub fn apply_side_stuck(
    s: Option<StuckFrontier>,
    timeout: u64,
    height: u64,
    frontier: Option<Hash>,
    busy: bool,
    clock: u64,
) -> Stepped
    requires { timeout ≤ max_duration }
    ensures { (w : Window) → w.watch.stuck ≡ s → w.settings.received_timeout ≡ timeout → result ≡ stepped height (advance_apply_side_stuck height frontier busy clock w) }
{
    let Some(h) = frontier else {
        return Stepped {
            stuck: None,
            answer: Blocked::NoDecision,
        };
    };
    let still = stuck_still(s, height, h, busy, clock);
    if busy {
        return evicted_by(still, height, h, timeout * 2, clock);
    }
    Stepped {
        stuck: still,
        answer: Blocked::NoDecision,
    }
}

// ---- the stall

// `is_above`
fn is_above(highest: Option<u64>, n: u64) -> bool
    ensures { result ≡ is_above highest n }
{
    let Some(h) = highest else {
        return false;
    };
    n < h
}

// `blocks` in a window with these settings: the front is next, enough is staged, and something above it.
pub fn blocks(next: u64, staged: u64, highest: Option<u64>, e: Entry, b: Settings) -> bool
    ensures { (w : Window) → w.settings ≡ b → result ≡ blocks next staged highest e w }
{
    if e.height != next {
        return false;
    }
    if staged < b.max_received_blocks / 2 {
        return false;
    }
    is_above(highest, e.height)
}

// `stalled_since`
pub fn stalled_since(s: Option<StallEpisode>, e: Entry, clock: u64) -> u64
    ensures { result ≡ stalled_since s e clock }
{
    let Some(x) = s else {
        return clock;
    };
    if hash::same_both(x.owner, e.owner, x.front, e.hash) {
        return x.since;
    }
    clock
}

// ---- the pending timeout

// `armed_by`
pub fn armed_by(lowest: Option<Entry>) -> Observation
    ensures { result ≡ armed_by lowest }
{
    let Some(e) = lowest else {
        return Observation::Unarmed;
    };
    let h = e.hash;
    Observation::Armed(e.owner, h)
}

// `timeout_answer`: the first blame answers, else the hedge.
pub fn timeout_answer(blamed: Option<u64>, hedge: Blocked) -> Blocked
    ensures { result ≡ timeout_answer blamed hedge }
{
    let Some(owner) = blamed else {
        return hedge;
    };
    Blocked::BlamePendingTimeout(owner)
}

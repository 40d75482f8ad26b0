// SPECIFICATION 7.16: `observe_blocked`, in words that hold a window: its steps in order, and what they come to. The last clock is not set here.
#![tactic(auto)]

ghost use Rattle.std.specs.Prelude.{◌≡◌, Bool, ℕ, None, Option};
ghost use Rattle.model.specs.Layout.{window_of};
ghost use Rattle.model.specs.Races.{Hedge};
ghost use Rattle.model.specs.Observation.{Decision, advance_stall, hedge_says, stall_seen, busy_seen, idle_seen, observe_at, observe_blocked};
ghost use Rattle.model.specs.Perform.{says, decision_values};
ghost use Rattle.model.specs.Says.{blocked_answer};
ghost use Rattle.laws.specs.Fits.{LowHeight};
ghost use Rattle.laws.specs.Sound.{Sound};
ghost use Rattle.laws.specs.Whole.{Whole, Holds};
ghost use Rattle.cold_front.specs.Cold.{asked};
ghost use Rattle.watch.specs.Answers.{blocked_of};
ghost use Rattle.observation.specs.Look.{look, Sees};

use model::{Blocked, ColdFront, Hash, Observation, Words};

// What a busy apply side clears: stall and observation, and the cold front unless it races. No decision has a part in it.
fn clear_watch(words: &mut Words)
    requires { Whole words.old }
    ensures { (d : Decision) → Holds (busy_seen d (window_of words.old)).window words.new }
{
    state::set_stall(words, None);
    state::set_observation(words, Observation::Unarmed);
    let cold = state::get_cold(words);
    if cold_front::is_racing(cold) {
        return;
    }
    state::set_cold(words, ColdFront::Idle);
}

// `stall_seen` of `advance_stall`, what follows the cold front: the first blame answers, else the hedge that it found.
fn after_cold_front(
    words: &mut Words,
    next: u64,
    staged: u64,
    highest: Option<u64>,
    hedge: Blocked,
    clock: u64,
) -> Blocked
    requires { Whole words.old × Sound clock (window_of words.old) }
    ensures { (h : Hedge) → hedge ≡ blocked_of (hedge_says h) → Sees (stall_seen (advance_stall next staged highest clock (window_of words.old)).blamed (advance_stall next staged highest clock (window_of words.old)).window h clock) words.new result }
{
    let staller = look_steps::advance_stall(words, next, staged, highest, clock);
    let Some(owner) = staller else {
        let late = look_steps::advance_pending_timeout(words, clock);
        return watch::timeout_answer(late, hedge);
    };
    Blocked::BlameStaller(owner)
}

// The hedge of a cold front as an answer.
fn hedge_answer(hedge: Option<(u64, Hash)>) -> Blocked
    ensures { result ≡ blocked_of (hedge_says (asked hedge)) }
{
    let Some((owner, h)) = hedge else {
        return Blocked::NoDecision;
    };
    Blocked::HedgeColdFront(owner, h)
}

// `idle_seen`: cold front, then stall, then pending timeout.
fn observe_idle(
    words: &mut Words,
    next: u64,
    staged: u64,
    highest: Option<u64>,
    clock: u64,
) -> Blocked
    requires { Whole words.old × Sound clock (window_of words.old) }
    ensures { (n : Option ℕ) (f : Option Hash) (b : Bool) → Sees (idle_seen (look n f b staged highest) next clock (window_of words.old)) words.new result }
{
    let asked = cold_front::advance_cold_front(words, next, clock);
    let hedge = hedge_answer(asked);
    after_cold_front(words, next, staged, highest, hedge, clock)
}

// `observe_at` without a next height: stuck frontier, cold front and stall are passed by.
fn observe_unplaced(words: &mut Words, busy: bool, clock: u64) -> Blocked
    requires { Whole words.old × Sound clock (window_of words.old) }
    ensures { (n : Option ℕ) (f : Option Hash) (s : ℕ) (g : Option ℕ) → Sees (observe_at None (look n f busy s g) clock (window_of words.old)) words.new result }
{
    if busy {
        clear_watch(words);
        return Blocked::NoDecision;
    }
    let late = look_steps::advance_pending_timeout(words, clock);
    watch::timeout_answer(late, Blocked::NoDecision)
}

// `observe_blocked`: stuck frontier; busy; then what is left of the look.
pub fn observe_blocked(
    words: &mut Words,
    next: Option<u64>,
    frontier: Option<Hash>,
    busy: bool,
    staged: u64,
    highest: Option<u64>,
    clock: u64,
) -> Blocked
    requires { Whole words.old × Sound clock (window_of words.old) × LowHeight next }
    ensures { Holds (observe_blocked (look next frontier busy staged highest) clock (window_of words.old)).window words.new × (blocked_answer result ≡ says 0 (decision_values (observe_blocked (look next frontier busy staged highest) clock (window_of words.old)).decision)) }
{
    let Some(height) = next else {
        return observe_unplaced(words, busy, clock);
    };
    let evicted = look_steps::advance_apply_side_stuck(words, height, frontier, busy, clock);
    if busy {
        clear_watch(words);
        return evicted;
    }
    observe_idle(words, height, staged, highest, clock)
}

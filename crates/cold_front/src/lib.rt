// SPECIFICATION 6.10, 7.15: the cold front, in words that hold a window. The last clock is not set here.
#![tactic(auto)]

ghost use Rattle.std.specs.Prelude.{◌≡◌, cond, ◌-◌, ◌≤◌, leb};
ghost use Rattle.model.specs.Numbers.{max_clock};
ghost use Rattle.model.specs.declared.ColdFront.TheVariants.{Idle, Waiting};
ghost use Rattle.model.specs.Races.{cold_step, no_hedge, hedge, is_racing, wait_on, advance_cold_front, racing_with, hedge_offered, waits_for, confirm_cold_front_hedge};
ghost use Rattle.model.specs.Layout.{window_of};
ghost use Rattle.model.specs.Window.{with_cold};
ghost use Rattle.laws.specs.Sound.{SoundCold};
ghost use Rattle.laws.specs.Whole.{Whole, Holds};
ghost use Rattle.cold_front.specs.Cold.{asked, turned};

use model::{ColdFront, Entry, Hash, Words, limits};

// The model's `ColdStep`; what it asks is an owner and a hash to hedge, where there is one.
#[derive(Clone, Copy)]
pub struct Turn {
    pub cold: ColdFront,
    pub asks: Option<(u64, Hash)>,
}

// `is_racing`
pub fn is_racing(cold: ColdFront) -> bool
    ensures { result ≡ is_racing cold }
{
    match cold {
        ColdFront::Idle => false,
        ColdFront::Waiting(_, _, _) => false,
        ColdFront::Racing(_, _, _) => true,
    }
}

// `racing_with`
fn racing_with(cold: ColdFront, source: u64, h: Hash) -> bool
    ensures { result ≡ racing_with cold source h }
{
    match cold {
        ColdFront::Idle => false,
        ColdFront::Waiting(_, _, _) => false,
        ColdFront::Racing(_, alternate, front) => hash::same_both(alternate, source, front, h),
    }
}

// `waits_for`
fn waits_for(cold: ColdFront, owner: u64, h: Hash) -> bool
    ensures { result ≡ waits_for cold owner h }
{
    match cold {
        ColdFront::Idle => false,
        ColdFront::Waiting(o, front, _) => hash::same_both(o, owner, front, h),
        ColdFront::Racing(_, _, _) => false,
    }
}

// No wait and no hedge.
fn idle() -> Turn
    ensures { turned result ≡ cold_step Idle no_hedge }
{
    Turn {
        cold: ColdFront::Idle,
        asks: None,
    }
}

// A wait that begins asks for no hedge.
fn anew(owner: u64, h: Hash, clock: u64) -> Turn
    ensures { turned result ≡ cold_step (Waiting owner h clock) no_hedge }
{
    let first = None;
    Turn {
        cold: ColdFront::Waiting(owner, h, clock),
        asks: first,
    }
}

// A wait that goes on asks for a hedge at its end.
fn goes_on(owner: u64, h: Hash, since: u64, initial: u64, clock: u64) -> Turn
    ensures { turned result ≡ cold_step (Waiting owner h since) (cond (leb initial (clock - since)) (hedge owner h) no_hedge) }
{
    let cold = ColdFront::Waiting(owner, h, since);
    if clock.saturating_sub(since) < initial {
        return Turn { cold, asks: None };
    }
    Turn {
        cold,
        asks: Some((owner, h)),
    }
}

// `wait_on`: the same wait goes on; any other begins anew.
fn wait_on(cold: ColdFront, e: Entry, initial: u64, clock: u64) -> Turn
    ensures { turned result ≡ wait_on cold e initial clock }
{
    let front = e.hash;
    match cold {
        ColdFront::Idle => anew(e.owner, front, clock),
        ColdFront::Waiting(owner, h, since) => {
            if hash::same_both(owner, e.owner, h, front) {
                return goes_on(owner, h, since, initial, clock);
            }
            anew(e.owner, front, clock)
        }
        ColdFront::Racing(_, _, _) => anew(e.owner, front, clock),
    }
}

// `advance_cold_front`, before it is written.
fn next_turn(words: &Words, next: u64, clock: u64) -> Turn
    requires { Whole words.now }
    ensures { turned result ≡ advance_cold_front next clock (window_of words.now) }
{
    let cold = state::get_cold(words);
    if is_racing(cold) {
        return Turn { cold, asks: None };
    }
    let pace = state::get_pace(words);
    if pace.mean != 0 {
        return idle();
    }
    if limits::MAX_COLD_FRONT_HEDGES <= state_races::hedged_count(words) {
        return idle();
    }
    // SPECIFICATION 6.10 calls it the cold front; it is any entry at the next height, as the Rust has it.
    let lowest = state_queue::at_height(words, next);
    let Some(e) = lowest else {
        return idle();
    };
    let s = state::get_settings(words);
    wait_on(cold, e, s.stall_timeout_initial, clock)
}

// `advance_cold_front`: the cold front is written, the hedge is the answer.
pub fn advance_cold_front(words: &mut Words, next: u64, clock: u64) -> Option<(u64, Hash)>
    requires { Whole words.old × ((clock ≤ max_clock) × SoundCold clock (window_of words.old).races.cold) }
    ensures { (asked result ≡ (advance_cold_front next clock (window_of words.old)).asks) × Holds (with_cold (advance_cold_front next clock (window_of words.old)).cold (window_of words.old)) words.new }
{
    let t = next_turn(words, next, clock);
    let cold = t.cold;
    let asks = t.asks;
    state::set_cold(words, cold);
    asks
}

// `hedge_offered`
pub fn hedge_offered(words: &Words, source: u64, h: Hash) -> bool
    requires { Whole words.now }
    ensures { result ≡ hedge_offered source h (window_of words.now) }
{
    let cold = state::get_cold(words);
    racing_with(cold, source, h)
}

// `confirm_cold_front_hedge`
pub fn confirm_cold_front_hedge(words: &mut Words, owner: u64, alternate: u64, h: Hash)
    requires { Whole words.old }
    ensures { Holds (confirm_cold_front_hedge owner alternate h (window_of words.old)) words.new }
{
    let cold = state::get_cold(words);
    if !waits_for(cold, owner, h) {
        return;
    }
    let racing = ColdFront::Racing(owner, alternate, h);
    if state_races::is_hedged(words, h) {
        state::set_cold(words, racing);
        return;
    }
    if limits::MAX_COLD_FRONT_HEDGES <= state_races::hedged_count(words) {
        return;
    }
    state_races::push_hedged(words, h);
    state::set_cold(words, racing);
}

// SPECIFICATION 7.4 to 7.6, 7.17, 7.18: what deliveries, rejections and the smaller calls change without letting go, in words that hold a window.
// Contracts as in `state`: the words hold the model's step of the window that they held. The last clock is not set here: the public call does it
// last.
#![tactic(auto)]

ghost use Rattle.std.specs.Prelude.{◌≤◌, Some};
ghost use Rattle.model.specs.Numbers.{max_estimate, max_body};
ghost use Rattle.model.specs.Calls.{credit_duplicate_delivery, record_delivery_progress, progress_by, next_mean, rejected_by, set_fanout_eligible_peers, clear_preferred_peer};
ghost use Rattle.model.specs.Layout.{window_of};
ghost use Rattle.model.specs.Window.{with_mean};
ghost use Rattle.laws.specs.Sound.{Sound};
ghost use Rattle.laws.specs.Whole.{Whole, Holds};
ghost use Rattle.states.specs.Fits.{cold_fits};

use model::{Entry, Fanout, Hash, Words};

// ---- deliveries

// `credit_duplicate_delivery`
pub fn credit_duplicate_delivery(words: &mut Words, h: Hash, source: u64)
    requires { Whole words.old }
    ensures { Holds (credit_duplicate_delivery h source (window_of words.old)) words.new }
{
    let o = state::get_observation(words);
    let x = rules::unless_observed(h, source, o);
    state::set_observation(words, x);
}

// `record_delivery_progress`
pub fn record_delivery_progress(words: &mut Words, source: u64, h: Hash, height: u64, clock: u64)
    requires { Whole words.old × Sound clock (window_of words.old) }
    ensures { Holds (record_delivery_progress source h height clock (window_of words.old)) words.new }
{
    let s = state::get_stall(words);
    let x = rules::unless_stalled(h, source, s);
    let b = state::get_settings(words);
    let p = state::get_pace(words);
    let q = lent_pace::lend_at_front(p, b, clock);
    let front = state_queue::was_front(words, height);
    state::set_stall(words, x);
    if front {
        state::set_pace(words, q);
    }
}

// `progress_by`: a delivery without a pending height is no front.
pub fn progress_by(words: &mut Words, height: Option<u64>, source: u64, h: Hash, clock: u64)
    requires { Whole words.old × Sound clock (window_of words.old) }
    ensures { Holds (progress_by height source h clock (window_of words.old)) words.new }
{
    if let Some(n) = height {
        record_delivery_progress(words, source, h, n, clock);
    }
}

// The mean moves by `next_mean`, whether the body was asked for (then `front` is its entry) or not.
pub fn move_mean(words: &mut Words, front: Option<Entry>, bytes: u64)
    requires { Whole words.old × (((window_of words.old).mean ≤ max_estimate) × (bytes ≤ max_body)) }
    ensures { Holds (with_mean (next_mean (window_of words.old).mean bytes) (window_of words.old)) words.new }
{
    let m = state::get_mean(words);
    let n = rules::mean_after(front, m, bytes);
    state::set_mean(words, n);
}

// ---- rejections

fn rejected_from(words: &mut Words, source: u64, h: Hash)
    requires { Whole words.old × cold_fits (window_of words.old).races.cold }
    ensures { Holds (rejected_by (Some source) h (window_of words.old)) words.new }
{
    let c = state::get_cold(words);
    let x = rules::unless_front(h, source, c);
    credit_duplicate_delivery(words, h, source);
    state::set_cold(words, x);
}

// `rejected_by`: what a rejection changes before the entry goes; a missing source changes nothing.
pub fn rejected_by(words: &mut Words, source: Option<u64>, h: Hash)
    requires { Whole words.old × cold_fits (window_of words.old).races.cold }
    ensures { Holds (rejected_by source h (window_of words.old)) words.new }
{
    if let Some(s) = source {
        rejected_from(words, s, h);
    }
}

// ---- other calls

// `set_fanout_eligible_peers`
pub fn set_fanout_eligible_peers(words: &mut Words, n: u64, clock: u64)
    requires { Whole words.old }
    ensures { Holds (set_fanout_eligible_peers n clock (window_of words.old)) words.new }
{
    let b = state::get_settings(words);
    let f = state::get_fanout(words);
    let p = state_races::get_probe(words);
    let least = b.min_peers_for_fanout;
    let initial = b.stall_timeout_initial;
    let engaged = rules::engages(least, initial, f.engaged, p, n, clock);
    state::set_fanout(
        words,
        Fanout {
            eligible: n,
            engaged,
        },
    );
    if engaged {
        state_races::clear_probe(words);
    }
}

// `clear_preferred_peer`
pub fn clear_preferred_peer(words: &mut Words)
    requires { Whole words.old }
    ensures { Holds (clear_preferred_peer (window_of words.old)) words.new }
{
    state::set_preferred(words, None);
}

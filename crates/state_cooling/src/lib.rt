// Peers that were found unresponsive, in words that hold a window. Contracts as in `state`.
#![tactic(auto)]

ghost use Rattle.std.specs.Prelude.{◌≡◌, ◌<◌, ◌≤◌};
ghost use Rattle.model.specs.Numbers.{max_clock, max_seat};
ghost use Rattle.model.specs.Cooling.{key_of, mark_peer_unresponsive, peer_in_staller_cooldown};
ghost use Rattle.model.specs.Layout.{window_of};
ghost use Rattle.laws.specs.Whole.{Whole, Holds};

use model::{Words, at, head};

// `mark_peer_unresponsive`; a sound window's keys are in range
pub fn mark_peer_unresponsive(words: &mut Words, source: usize, clock: u64)
    requires { Whole words.old × ((source < 256) × ((clock ≤ max_clock) × (key_of source (window_of words.old) ≤ max_seat))) }
    ensures { Holds (mark_peer_unresponsive source clock (window_of words.old)) words.new }
{
    let cooldown = layout::word_of(words, head::STALLER_COOLDOWN);
    let key = seats::key_of(words, source);
    cooling::mark_unresponsive(&mut words[at::COOLING..at::RACERS], cooldown, key, clock);
}

// `peer_in_staller_cooldown`
pub fn in_cooldown(words: &Words, source: usize, clock: u64) -> bool
    requires { (source < 256) × (clock ≤ max_clock) × (key_of source (window_of words.now) ≤ max_seat) }
    ensures { result ≡ peer_in_staller_cooldown source clock (window_of words.now) }
{
    let cooldown = layout::word_of(words, head::STALLER_COOLDOWN);
    let key = seats::key_of(words, source);
    cooling::is_cooling(&words[at::COOLING..at::RACERS], cooldown, key, clock)
}

// The queries that are more than a part of the window read: each is the model's, of the window that the words hold. They write nothing.
#![tactic(auto)]

ghost use Rattle.std.specs.Prelude.{◌≡◌, true, suc, ◌<◌, ◌≤◌};
ghost use Rattle.model.specs.Numbers.{max_front_mean};
ghost use Rattle.model.specs.Capacity.{has_request_capacity, compute_request_capacity, effective_peer_inflight};
ghost use Rattle.model.specs.Pace.{stall_decay_floor};
ghost use Rattle.model.specs.Records.{found, is_there};
ghost use Rattle.model.specs.Seats.{is_downloading};
ghost use Rattle.model.specs.Queries.{source_values, owner_values, stall_values};
ghost use Rattle.model.specs.Perform.{says};
ghost use Rattle.model.specs.Says.{perhaps_pair_answer};
ghost use Rattle.model.specs.Layout.{window_of, rising};
ghost use Rattle.capacity.specs.OnNumbers.{batch_says};
ghost use Rattle.laws.specs.Whole.{Whole};
ghost use Rattle.queries.specs.Values.{seated};

use model::{Entry, Hash, StallEpisode, Words};

// ---- capacity

// `effective_peer_inflight`
pub fn effective_peer_inflight(words: &Words) -> u64
    ensures { result ≡ effective_peer_inflight (window_of words.now) }
{
    let b = state::get_settings(words);
    let f = state::get_fanout(words);
    capacity::peer_inflight(b, f)
}

// `has_request_capacity`
pub fn has_request_capacity(words: &Words, byte_headroom: u64, count_headroom: u64) -> bool
    requires { Whole words.now }
    ensures { result ≡ has_request_capacity byte_headroom count_headroom (window_of words.now) }
{
    let b = state::get_settings(words);
    let n = state_queue::pending_count(words);
    let total = state::get_total(words);
    let mean = state::get_mean(words);
    capacity::capacity_left(b, n as u64, total, mean, byte_headroom, count_headroom)
}

// `compute_request_capacity`
pub fn compute_request_capacity(
    words: &Words,
    source: u64,
    byte_headroom: u64,
    count_headroom: u64,
) -> Option<(u64, u64)>
    requires { Whole words.now }
    ensures { batch_says result ≡ compute_request_capacity source byte_headroom count_headroom (window_of words.now) }
{
    let b = state::get_settings(words);
    let f = state::get_fanout(words);
    let owned = state_queue::pending_count_for(words, source);
    let n = state_queue::pending_count(words);
    let total = state::get_total(words);
    let mean = state::get_mean(words);
    let bytes = byte_headroom;
    capacity::compute_capacity(b, f, owned, n as u64, total, mean, bytes, count_headroom)
}

// ---- pace and seats

// `stall_decay_floor`
pub fn stall_decay_floor(words: &Words) -> u64
    requires { (window_of words.now).pace.mean ≤ suc max_front_mean }
    ensures { result ≡ stall_decay_floor (window_of words.now).settings (window_of words.now).pace }
{
    let b = state::get_settings(words);
    let p = state::get_pace(words);
    pace::stall_decay_floor(b, p)
}

// `is_downloading`
pub fn is_downloading(words: &Words, seat: usize) -> bool
    requires { seat < 256 }
    ensures { result ≡ is_downloading seat (window_of words.now).queue.starts }
{
    numbers::present(state::start_of(words, seat))
}

// `stall_values`: the key of the stalling seat, and since when.
pub fn stalling_peer(words: &Words) -> Option<(u64, u64)>
    requires { seated (window_of words.now).watch.stall }
    ensures { perhaps_pair_answer result ≡ says 0 (stall_values (window_of words.now).watch.stall (window_of words.now)) }
{
    let s = state::get_stall(words);
    match s {
        None => None,
        Some(StallEpisode { owner, since, .. }) => {
            let key = state::key_of(words, owner as usize);
            Some((key, since))
        }
    }
}

// ---- the entry of a hash

// `found`, among records that rise
pub fn found(words: &Words, h: Hash) -> Option<Entry>
    requires { Whole words.now × (rising (window_of words.now).queue.pending ≡ true) }
    ensures { result ≡ found h (window_of words.now).queue.pending }
{
    let p = state_queue::find(words, h);
    match p {
        Ok(at) => {
            let e = state_queue::entry_at(words, at);
            Some(e)
        }
        Err(_) => None,
    }
}

// `is_there` of `found`
pub fn contains_pending(words: &Words, h: Hash) -> bool
    requires { Whole words.now × (rising (window_of words.now).queue.pending ≡ true) }
    ensures { result ≡ is_there (found h (window_of words.now).queue.pending) }
{
    state_queue::find(words, h).is_ok()
}

// `owner_values` of `found`
pub fn pending_owner(words: &Words, h: Hash) -> Option<u64>
    requires { Whole words.now × (rising (window_of words.now).queue.pending ≡ true) }
    ensures { source_values result ≡ owner_values (found h (window_of words.now).queue.pending) }
{
    found(words, h).map(|e| e.owner)
}

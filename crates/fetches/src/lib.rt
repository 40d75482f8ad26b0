// SPECIFICATION 7.3: an owned fetch, in words that hold a window. Contracts as in `state`; the last clock is not set here.
#![tactic(auto)]

ghost use Rattle.std.specs.Prelude.{◌≡◌, ◌≤◌};
ghost use Rattle.model.specs.Numbers.{max_seat};
ghost use Rattle.model.specs.Calls.{asked, fetched, mark_owned_fetch, owned_fetch};
ghost use Rattle.model.specs.Perform.{says, fetch_values};
ghost use Rattle.model.specs.Says.{fetch_answer};
ghost use Rattle.model.specs.Layout.{window_of};
ghost use Rattle.laws.specs.RequestsKept.{Asking};
ghost use Rattle.laws.specs.Sound.{Sound};
ghost use Rattle.laws.specs.Whole.{Whole, Holds};

use model::{Fetch, Hash, Words};

// `fetched` where the hash is asked for: a request of one entry, over which the attempted owner is kept.
fn ask(words: &mut Words, owner: u64, h: Hash, height: u64, clock: u64)
    requires { Whole words.old × (Sound clock (window_of words.old) × (Asking h (window_of words.old) × (owner ≤ max_seat))) }
    ensures { Holds (fetched asked owner h height clock (window_of words.old)) words.new }
{
    let attempted = state::get_attempted(words);
    requests::forget_attempted(words, 1);
    requests::put_one(words, h, owner, height, clock);
    requests::close(words, 1, owner, 0, clock);
    state::set_attempted(words, attempted);
}

// `mark_owned_fetch`, and what it says: held, staged, asked or no capacity.
pub fn mark_owned_fetch(
    words: &mut Words,
    owner: u64,
    h: Hash,
    height: u32,
    is_staged: bool,
    byte_headroom: u64,
    count_headroom: u64,
    clock: u64,
) -> Fetch
    requires { Whole words.old × (Sound clock (window_of words.old) × (owner ≤ max_seat)) }
    ensures { (fetch_answer result ≡ says 0 (fetch_values (owned_fetch owner h is_staged byte_headroom count_headroom (window_of words.old))))
        × Holds (mark_owned_fetch owner h height is_staged byte_headroom count_headroom clock (window_of words.old)) words.new }
{
    if queries::contains_pending(words, h) {
        return Fetch::Held;
    }
    if is_staged {
        return Fetch::Staged;
    }
    let limit = queries::effective_peer_inflight(words);
    let owned = state_queue::pending_count_for(words, owner);
    if queries::has_request_capacity(words, byte_headroom, count_headroom) {
        if owned < limit {
            ask(words, owner, h, height as u64, clock);
            return Fetch::Asked;
        }
    }
    Fetch::NoCapacity
}

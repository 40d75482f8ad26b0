// SPECIFICATION 7.2: a request's entries go in, in words that hold a window. Contracts as in `state`; the last clock is not set here.
#![tactic(auto)]

ghost use Rattle.std.specs.Prelude.{◌≡◌, ◌+◌, ◌/◌, ◌≤◌, length, Err};
ghost use Rattle.model.specs.Numbers.{lesser, max_clock, max_estimate, max_seat};
ghost use Rattle.model.specs.Records.{new_entry};
ghost use Rattle.model.specs.Calls.{asks_in, put, mark_requested};
ghost use Rattle.model.specs.Layout.{window_of};
ghost use Rattle.model.specs.Window.{with_queue};
ghost use Rattle.laws.specs.Kept.{Requestable};
ghost use Rattle.laws.specs.Sound.{Sound};
ghost use Rattle.laws.specs.Whole.{Whole, Holds};
ghost use Rattle.records.specs.Places.{Finds};
ghost use Rattle.requests.specs.Asks.{hash_in};
ghost use Rattle.requests.specs.Puts.{place_of, Takes, Ready};
ghost use Rattle.requests.specs.Rows.{forgotten, waits, risen, closed, filled};

use model::{Entry, Hash, Words};

// ---- one entry

// `new_entry`
pub fn new_entry(hash: Hash, owner: u64, clock: u64, height: u64, estimate: u64) -> Entry
    ensures { result ≡ new_entry hash owner clock height estimate }
{
    Entry {
        hash,
        owner,
        time: clock,
        height,
        estimate,
    }
}

// `place_of`
fn place_of(p: Result<usize, usize>) -> usize
    ensures { result ≡ place_of p }
{
    match p {
        Ok(at) | Err(at) => at,
    }
}

// `put` of an entry whose hash is absent, at the place where a search for it ended; its estimate is the mean.
fn put_found(words: &mut Words, at: usize, h: Hash, owner: u64, height: u64, clock: u64)
    requires { Whole words.old × (Takes h (window_of words.old) × Finds h (window_of words.old).queue.pending (Err at)) }
    ensures { Holds (with_queue (put (new_entry h owner clock height (window_of words.old).mean) (window_of words.old).queue) (window_of words.old)) words.new }
{
    let mean = state::get_mean(words);
    let e = new_entry(h, owner, clock, height, mean);
    state_queue::put_at(words, at, e);
}

// `put` of an entry whose hash is absent.
pub fn put_one(words: &mut Words, h: Hash, owner: u64, height: u64, clock: u64)
    requires { Whole words.old × Takes h (window_of words.old) }
    ensures { Holds (with_queue (put (new_entry h owner clock height (window_of words.old).mean) (window_of words.old).queue) (window_of words.old)) words.new }
{
    let p = state_queue::find(words, h);
    let at = place_of(p);
    put_found(words, at, h, owner, height, clock);
}

// ---- the list

// How many asks two slices of these lengths hold whole.
pub fn asked(hashes: usize, heights: usize) -> usize
    ensures { result ≡ lesser (hashes / 4) heights }
{
    let n = hashes / 4;
    if n <= heights {
        return n;
    }
    heights
}

// `hash_in`: the hash whose four words start at k.
pub fn hash_in(hashes: &[u64], k: usize) -> Hash
    requires { k + 4 ≤ length hashes.now }
    ensures { result ≡ hash_in hashes.now k }
{
    Hash {
        a: hashes[k],
        b: hashes[k + 1],
        c: hashes[k + 2],
        d: hashes[k + 3],
    }
}

// `puts`: one entry after the other.
fn put_all(words: &mut Words, hashes: &[u64], heights: &[u32], n: usize, owner: u64, clock: u64)
    requires { Whole words.old × (((window_of words.old).mean ≤ max_estimate) × (Ready (asks_in hashes.now heights.now) (window_of words.old).queue × (n ≡ length (asks_in hashes.now heights.now)))) }
    ensures { Holds (filled (asks_in hashes.now heights.now) owner clock (window_of words.old)) words.new }
{
    for i in 0..n {
        let h = hash_in(hashes, 4 * i);
        let height = heights[i] as u64;
        put_one(words, h, owner, height, clock);
    }
}

// ---- what else a request of n entries changes

// `forgotten`: the attempted owner goes where nothing was pending.
pub fn forget_attempted(words: &mut Words, n: usize)
    requires { Whole words.old }
    ensures { Holds (forgotten n (window_of words.old)) words.new }
{
    let count = state_queue::pending_count(words);
    if (count == 0) & (n != 0) {
        state::set_attempted(words, None);
    }
}

// `waits`: the owner's start is noted.
fn start_owner(words: &mut Words, n: usize, owner: u64, clock: u64)
    requires { Whole words.old × ((owner ≤ max_seat) × (clock ≤ max_clock)) }
    ensures { Holds (waits n owner clock (window_of words.old)) words.new }
{
    if n != 0 {
        state_queue::note_start(words, owner as usize, clock);
    }
}

// `risen`: the high waters follow the queue, and the frontier the next height.
fn raise(words: &mut Words, next: u64)
    requires { Whole words.old }
    ensures { Holds (risen next (window_of words.old)) words.new }
{
    let count = state_queue::pending_count(words);
    let total = state::get_total(words);
    let high = state::get_high_blocks(words);
    let bytes = state::get_high_bytes(words);
    let frontier = state::get_frontier(words);
    let top = numbers::greater(high, count as u64);
    let most = numbers::greater(bytes, total);
    let f = numbers::greater(frontier, next);
    state_queue::set_high(words, top, most);
    state::set_frontier(words, f);
}

// `closed`: what follows the puts of n entries.
pub fn close(words: &mut Words, n: usize, owner: u64, next: u64, clock: u64)
    requires { Whole words.old × ((owner ≤ max_seat) × (clock ≤ max_clock)) }
    ensures { Holds (closed n owner next clock (window_of words.old)) words.new }
{
    start_owner(words, n, owner, clock);
    raise(words, next);
}

// `mark_requested`
pub fn mark_requested(
    words: &mut Words,
    hashes: &[u64],
    heights: &[u32],
    owner: u64,
    next: u32,
    clock: u64,
)
    requires { Whole words.old × (Sound clock (window_of words.old) × (Requestable (asks_in hashes.now heights.now) (window_of words.old) × (owner ≤ max_seat))) }
    ensures { Holds (mark_requested (asks_in hashes.now heights.now) owner next clock (window_of words.old)) words.new }
{
    let n = asked(hashes.len(), heights.len());
    forget_attempted(words, n);
    put_all(words, hashes, heights, n, owner, clock);
    close(words, n, owner, next as u64, clock);
}

// `mark_requested` of a list of one, at the place where a search for its hash ended.
pub fn mark_found(
    words: &mut Words,
    hashes: &[u64],
    heights: &[u32],
    at: usize,
    owner: u64,
    next: u32,
    clock: u64,
)
    requires { (Whole words.old × (Sound clock (window_of words.old) × (Requestable (asks_in hashes.now heights.now) (window_of words.old) × (owner ≤ max_seat))))
        × ((length (asks_in hashes.now heights.now) ≡ 1) × Finds (hash_in hashes.now 0) (window_of words.old).queue.pending (Err at)) }
    ensures { Holds (mark_requested (asks_in hashes.now heights.now) owner next clock (window_of words.old)) words.new }
{
    let h = hash_in(hashes, 0);
    let height = heights[0] as u64;
    forget_attempted(words, 1);
    put_found(words, at, h, owner, height, clock);
    close(words, 1, owner, next as u64, clock);
}

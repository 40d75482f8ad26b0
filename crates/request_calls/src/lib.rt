// A request as a call makes it, in words that hold a window: what its list is refused by, 7 and 8, and the request with its answer and its clock.
// The list is that of its two slices, of any length.
#![tactic(auto)]

ghost use Rattle.std.specs.Prelude.{◌≡◌, true, ◌+◌, ◌≤◌, length, drop};
ghost use Rattle.model.specs.Numbers.{max_seat};
ghost use Rattle.model.specs.Says.{requested_says, refusal_number};
ghost use Rattle.model.specs.Calls.{asks_in};
ghost use Rattle.model.specs.Layout.{window_of, rising};
ghost use Rattle.model.specs.Refusals.{listed_once, request_refusal};
ghost use Rattle.laws.specs.Sound.{Sound};
ghost use Rattle.laws.specs.Whole.{Whole, Holds};
ghost use Rattle.request_calls.specs.Answer.{tried, request_answer, request_window};
ghost use Rattle.request_calls.specs.Listed.{listed, none_pending};

use model::{Hash, Refusal, Words, sizes};

// ---- its list

// `listed`: whether h is among the asks from `from` on.
fn listed_from(hashes: &[u64], heights: &[u32], from: usize, h: Hash) -> bool
    ensures { result ≡ listed h (drop from (asks_in hashes.now heights.now)) }
{
    let n = requests::asked(hashes.len(), heights.len());
    for i in from..n {
        let g = requests::hash_in(hashes, 4 * i);
        if hash::equal(g, h) {
            return true;
        }
    }
    false
}

// `listed_once`: no ask's hash is among those after it.
fn listed_once(hashes: &[u64], heights: &[u32]) -> bool
    ensures { result ≡ listed_once (asks_in hashes.now heights.now) }
{
    let n = requests::asked(hashes.len(), heights.len());
    for i in 0..n {
        let h = requests::hash_in(hashes, 4 * i);
        if listed_from(hashes, heights, i + 1, h) {
            return false;
        }
    }
    true
}

// `none_pending`: no ask's hash is pending.
fn none_pending(words: &Words, hashes: &[u64], heights: &[u32]) -> bool
    requires { Whole words.now × (rising (window_of words.now).queue.pending ≡ true) }
    ensures { result ≡ none_pending (asks_in hashes.now heights.now) (window_of words.now).queue.pending }
{
    let n = requests::asked(hashes.len(), heights.len());
    for i in 0..n {
        let h = requests::hash_in(hashes, 4 * i);
        if queries::contains_pending(words, h) {
            return false;
        }
    }
    true
}

// `request_refusal`: 7, then 8. The tests take a time that grows with the square of the list's length. The sum of pending and
// listed is never made.
fn request_refusal(words: &Words, hashes: &[u64], heights: &[u32]) -> Result<(), Refusal>
    requires { Whole words.now × (rising (window_of words.now).queue.pending ≡ true) }
    ensures { refusal_number result ≡ request_refusal (asks_in hashes.now heights.now) (window_of words.now) }
{
    if !none_pending(words, hashes, heights) {
        return Err(Refusal::Listed);
    }
    if !listed_once(hashes, heights) {
        return Err(Refusal::Listed);
    }
    let n = requests::asked(hashes.len(), heights.len());
    let count = state_queue::pending_count(words);
    if n > sizes::PLACES - count {
        return Err(Refusal::Many);
    }
    Ok(())
}

// ---- refused by its list, or done: the answer is `request_refusal`, and the words are left as `tried` says

// Any list: its tests, then its entries one by one.
fn request_each(
    words: &mut Words,
    hashes: &[u64],
    heights: &[u32],
    owner: u64,
    next: u32,
    clock: u64,
) -> Result<(), Refusal>
    requires { Whole words.old × (Sound clock (window_of words.old) × (owner ≤ max_seat)) }
    ensures { (refusal_number result ≡ request_refusal (asks_in hashes.now heights.now) (window_of words.old))
        × Holds (tried (refusal_number result) (asks_in hashes.now heights.now) owner next clock (window_of words.old)) words.new }
{
    request_refusal(words, hashes, heights)?;
    requests::mark_requested(words, hashes, heights, owner, next, clock);
    Ok(())
}

// A list of one: its hash is looked up once, and its entry goes in where that ended.
fn request_one(
    words: &mut Words,
    hashes: &[u64],
    heights: &[u32],
    m: usize,
    owner: u64,
    next: u32,
    clock: u64,
) -> Result<(), Refusal>
    requires { (Whole words.old × (Sound clock (window_of words.old) × (owner ≤ max_seat)))
        × ((m ≡ length (window_of words.old).queue.pending) × (length (asks_in hashes.now heights.now) ≡ 1)) }
    ensures { (refusal_number result ≡ request_refusal (asks_in hashes.now heights.now) (window_of words.old))
        × Holds (tried (refusal_number result) (asks_in hashes.now heights.now) owner next clock (window_of words.old)) words.new }
{
    let h = requests::hash_in(hashes, 0);
    let p = state_queue::find(words, h);
    match p {
        Ok(_) => Err(Refusal::Listed),
        Err(at) => {
            if m >= sizes::PLACES {
                return Err(Refusal::Many);
            }
            requests::mark_found(words, hashes, heights, at, owner, next, clock);
            Ok(())
        }
    }
}

// A list of many: where the order of all rows is found, it is good, and is written in that order; else as any list.
fn request_in_order(
    words: &mut Words,
    hashes: &[u64],
    heights: &[u32],
    m: usize,
    n: usize,
    owner: u64,
    next: u32,
    clock: u64,
) -> Result<(), Refusal>
    requires { (Whole words.old × (Sound clock (window_of words.old) × (owner ≤ max_seat)))
        × ((m ≡ length (window_of words.old).queue.pending) × ((n ≡ length (asks_in hashes.now heights.now)) × (m + n ≤ 256))) }
    ensures { (refusal_number result ≡ request_refusal (asks_in hashes.now heights.now) (window_of words.old))
        × Holds (tried (refusal_number result) (asks_in hashes.now heights.now) owner next clock (window_of words.old)) words.new }
{
    let mut order: [u64; sizes::PLACES] = [0; sizes::PLACES];
    if request_order::find_order(&mut order, words, hashes, m, n) {
        request_many::mark_in_order(words, hashes, heights, &order, m, n, owner, next, clock);
        return Ok(());
    }
    request_each(words, hashes, heights, owner, next, clock)
}

fn request_list(
    words: &mut Words,
    hashes: &[u64],
    heights: &[u32],
    owner: u64,
    next: u32,
    clock: u64,
) -> Result<(), Refusal>
    requires { Whole words.old × (Sound clock (window_of words.old) × (owner ≤ max_seat)) }
    ensures { (refusal_number result ≡ request_refusal (asks_in hashes.now heights.now) (window_of words.old))
        × Holds (tried (refusal_number result) (asks_in hashes.now heights.now) owner next clock (window_of words.old)) words.new }
{
    let n = requests::asked(hashes.len(), heights.len());
    let m = state_queue::pending_count(words);
    if n == 1 {
        return request_one(words, hashes, heights, m, owner, next, clock);
    }
    if request_order::is_many(m, n) {
        return request_in_order(words, hashes, heights, m, n, owner, next, clock);
    }
    request_each(words, hashes, heights, owner, next, clock)
}

// ---- the request

// `mark_requested`, the capacity that it leaves, and its clock; where its list is refused, that number, and nothing changes.
pub fn request(
    words: &mut Words,
    owner: u64,
    hashes: &[u64],
    heights: &[u32],
    next: u32,
    byte_headroom: u64,
    count_headroom: u64,
    clock: u64,
) -> Result<bool, Refusal>
    requires { Whole words.old × (Sound clock (window_of words.old) × (owner ≤ max_seat)) }
    ensures { (requested_says result ≡ request_answer byte_headroom count_headroom (asks_in hashes.now heights.now) owner next clock (window_of words.old))
        × Holds (request_window (asks_in hashes.now heights.now) owner next clock (window_of words.old)) words.new }
{
    request_list(words, hashes, heights, owner, next, clock)?;
    let room = queries::has_request_capacity(words, byte_headroom, count_headroom);
    state::set_clock(words, clock);
    Ok(room)
}

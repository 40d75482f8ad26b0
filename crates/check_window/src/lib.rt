// Whether 4,096 lent words are a window: the model's specs/Layout.antt says how they lie. It reads the words once: OR over what must be 0; one loop over
// the records, which fills the table of each seat's oldest request; one loop of bits, with no exit, over the seats.
#![tactic(auto)]

ghost use Rattle.std.specs.Prelude.{◌≡◌, ℕ, ◌+◌, ◌^◌, ◌<◌, ◌≤◌, ◌&&◌, length, ◌==◌, nat_le, nat_lt, slice_index};
ghost use Rattle.model.specs.Layout.{is_window};
ghost use Rattle.model.specs.Refusals.{is_long};
ghost use Rattle.facts.specs.Words.{count, clock, entry, blank_at, tails_zero, unused_zero, fields_fit, rises, records_fit, total_fits, earlier, oldest_of, start_by, most_raced, seat_by, seats_fit};

use model::{Hash, Words, at, limits, sizes};

// ---- what must be 0

// OR of the eight words of place i.
fn place(w: &Words, i: usize) -> u64
    requires { i < 256 }
    ensures { (result == 0) ≡ blank_at w.now i }
{
    w[i] | w[at::HASH_B + i]
        | w[at::HASH_C + i]
        | w[at::HASH_D + i]
        | w[at::OWNERS + i]
        | w[at::TIMES + i]
        | w[at::HEIGHTS + i]
        | w[at::ESTIMATES + i]
}

// OR of the places after the records.
fn tails(w: &Words) -> u64
    requires { count w.now ≤ 256 }
    ensures { (result == 0) ≡ tails_zero w.now }
{
    let n = check_head::to_usize(w[at::COUNT]);
    let m = sizes::PLACES - n;
    let mut acc: u64 = 0;
    for k in 0..m {
        acc = acc | place(w, n + k);
    }
    acc
}

// The places after the records and the words kept for a ninth column.
fn unused(w: &Words) -> bool
    requires { count w.now ≤ 256 }
    ensures { result ≡ unused_zero w.now }
{
    let t = tails(w);
    let u = check_head::any_bits(w, at::SPARE, sizes::PLACES);
    (t | u) == 0
}

// ---- records

// The hash of record i.
#[tactic(auto, unfolding(facts::specs::Words::entry))]
fn hash_at(w: &Words, i: usize) -> Hash
    requires { i < 256 }
    ensures { result ≡ (entry w.now i).hash }
{
    Hash {
        a: w[i],
        b: w[at::HASH_B + i],
        c: w[at::HASH_C + i],
        d: w[at::HASH_D + i],
    }
}

// Whether the hash of record i is above the one before.
fn rising(w: &Words, i: usize) -> bool
    requires { i < 256 }
    ensures { result ≡ rises w.now i }
{
    if i == 0 {
        return true;
    }
    hash::less(hash_at(w, i - 1), hash_at(w, i))
}

// The ranges of record i.
fn fields(w: &Words, i: usize) -> bool
    requires { i < 256 }
    ensures { result ≡ fields_fit w.now i }
{
    let x = w[at::ESTIMATES + i];
    (w[at::OWNERS + i] <= limits::MAX_SEAT)
        & (w[at::TIMES + i] <= w[at::LAST_CLOCK])
        & (w[at::HEIGHTS + i] <= limits::MAX_HEIGHT)
        & (limits::MIN_ESTIMATE <= x)
        & (x <= limits::MAX_ESTIMATE)
}

// The earlier of the time t and the stored time m.
fn sooner(t: u64, m: u64) -> u64
    requires { t ≤ 4611686018427387904 }
    ensures { result ≡ earlier t m }
{
    let d = std::num::wrapping_sub_u64(m, 1);
    if t < d {
        return t + 1;
    }
    m
}

// ---- seats: a word's top bit says what is wrong

const TOP_BIT: u64 = 0x8000_0000_0000_0000;

// No top bit exactly when x is at most max.
fn over(max: u64, x: u64) -> u64
    requires { max < 2 ^ 63 }
    ensures { nat_lt result (2 ^ 63) ≡ nat_le x max }
{
    x | std::num::wrapping_sub_u64(max, x)
}

// No top bit exactly when the start a fits a seat whose oldest record is from g.
fn start_top(latest: u64, g: u64, a: u64) -> u64
    requires { (latest < 2 ^ 63) × (g < 2 ^ 63) }
    ensures { nat_lt result (2 ^ 63) ≡ start_by latest g a }
{
    let o = over(latest, a);
    let x = std::num::wrapping_sub_u64(a, g);
    let y = std::num::wrapping_sub_u64(0, a);
    let z = std::num::wrapping_sub_u64(g, 1);
    o | x | (y & z)
}

fn seat_top(latest: u64, most: u64, g: u64, a: u64, l: u64, k: u64, c: u64, p: u64) -> u64
    requires { (latest < 2 ^ 63) × (most < 2 ^ 63) × (g < 2 ^ 63) }
    ensures { nat_lt result (2 ^ 63) ≡ seat_by latest most g a l k c p }
{
    let t = start_top(latest, g, a);
    let u = over(latest, l);
    let v = over(limits::MAX_SEAT, k);
    let x = over(latest, c);
    let y = over(most, p);
    t | u | v | x | y
}

// The greatest racer word, by the probe's first.
fn raced(since: u64) -> u64
    ensures { (result ≡ most_raced since) × (result < 2 ^ 63) }
{
    if since == 0 {
        return 0;
    }
    limits::MAX_STORED_PROGRESS
}

// The tables, in one loop with no exit.
fn seats(w: &Words, first: &[u64; sizes::SEATS]) -> bool
    requires in_time { clock w.now ≤ 4611686018427387904 }
    requires by_index { (s : ℕ) → slice_index first.now s ≡ oldest_of w.now s (count w.now) }
    requires by_index_2 { (s : ℕ) → slice_index first.now s < 2 ^ 63 }
    ensures { result ≡ seats_fit w.now }
{
    let latest = w[at::LAST_CLOCK] + 1;
    let most = raced(w[at::PROBE]);
    let mut acc: u64 = 0;
    for s in 0..sizes::SEATS {
        let t = seat_top(
            latest,
            most,
            first[s],
            w[at::STARTS + s],
            w[at::BODIES + s],
            w[at::KEYS + s],
            w[at::COOLING + s],
            w[at::RACERS + s],
        );
        acc = acc | t;
    }
    acc < TOP_BIT
}

// Records in one loop, which fills the table of each seat's oldest; then the seats.
fn records(w: &Words) -> bool
    requires { (count w.now ≤ 256) × (clock w.now ≤ 4611686018427387904) }
    ensures { result ≡ (records_fit w.now && total_fits w.now && seats_fit w.now) }
{
    let n = check_head::to_usize(w[at::COUNT]);
    let mut first = [0u64; sizes::SEATS];
    let mut sum: u64 = 0;
    for i in 0..n {
        if !fields(w, i) {
            return false;
        }
        if !rising(w, i) {
            return false;
        }
        let s = check_head::to_usize(w[at::OWNERS + i]);
        let t = w[at::TIMES + i];
        let m = first[s];
        first[s] = sooner(t, m);
        sum = sum + w[at::ESTIMATES + i];
    }
    if sum != w[at::TOTAL] {
        return false;
    }
    seats(w, &first)
}

// ---- all of it

// `is_window`, of as many words as a window has. It is called and not written out in each call: one that is refused before it then needs no room for it.
#[inline(never)]
pub fn holds_window(words: &Words) -> bool
    ensures { result ≡ is_window words.now }
{
    if !check_head::head(words) {
        return false;
    }
    if !unused(words) {
        return false;
    }
    records(words)
}

// Whether the words count as a window, however many they are.
pub fn is_window(words: &[u64]) -> bool
    ensures { result ≡ (is_long words.now && is_window words.now) }
{
    match words.as_array() {
        None => false,
        Some(array) => holds_window(array),
    }
}

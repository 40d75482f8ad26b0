// The tables by seat in the 4,096 lent words: starts, last bodies, keys and racers. A contract speaks of `decode`, and asks only lengths,
// indices and clocks. A missing time is 0 and a time t is t + 1.
#![tactic(auto)]

ghost use Rattle.std.specs.Prelude.{◌≡◌, ◌<◌, ◌≤◌, suc, cond, not, length, get_or, set, eqb};
ghost use Rattle.model.specs.Numbers.{max_clock, present};
ghost use Rattle.model.specs.Lists.{count};
ghost use Rattle.model.specs.Seats.{start_reset, body_reset, start_noted, active_downloading_peers, keep_seats};
ghost use Rattle.model.specs.LettingGo.{flagged};
ghost use Rattle.model.specs.Window.{no_seats};
ghost use Rattle.model.specs.Layout.{decode};
ghost use Rattle.laws.specs.Tables.{with_starts, with_bodies, with_racers, seat_reset, kept_seats};
ghost use Rattle.records.specs.Places.{stored};

use model::{PerSeat, Words, at};

// ---- one seat

pub fn start_of(words: &Words, seat: usize) -> u64
    requires { seat < 256 }
    ensures { result ≡ get_or (decode words.now).starts seat 0 }
{
    words[at::STARTS + seat]
}

pub fn body_of(words: &Words, seat: usize) -> u64
    requires { seat < 256 }
    ensures { result ≡ get_or (decode words.now).bodies seat 0 }
{
    words[at::BODIES + seat]
}

pub fn key_of(words: &Words, seat: usize) -> u64
    requires { seat < 256 }
    ensures { result ≡ get_or (decode words.now).keys seat 0 }
{
    words[at::KEYS + seat]
}

pub fn racer_of(words: &Words, seat: usize) -> u64
    requires { seat < 256 }
    ensures { result ≡ get_or (decode words.now).racers seat 0 }
{
    words[at::RACERS + seat]
}

pub fn set_start(words: &mut Words, seat: usize, start: u64)
    requires { seat < 256 }
    ensures { decode words.new ≡ with_starts (set (decode words.old).starts seat start) (decode words.old) }
{
    column::store(&mut words[at::STARTS..at::BODIES], seat, start);
}

pub fn set_body(words: &mut Words, seat: usize, body: u64)
    requires { seat < 256 }
    ensures { decode words.new ≡ with_bodies (set (decode words.old).bodies seat body) (decode words.old) }
{
    column::store(&mut words[at::BODIES..at::KEYS], seat, body);
}

pub fn set_racer(words: &mut Words, seat: usize, racer: u64)
    requires { seat < 256 }
    ensures { decode words.new ≡ with_racers (set (decode words.old).racers seat racer) (decode words.old) }
{
    column::store(&mut words[at::RACERS..at::HEAD], seat, racer);
}

// ---- `reset_owner_queue_start`

// `start_reset`: none left, it goes; the one removed older, the clock; equal, the later of start and oldest; newer, as it was.
fn start_reset(clock: u64, removed: u64, left: Option<u64>, start: u64) -> u64
    requires { (clock ≤ max_clock) × (removed ≤ max_clock) }
    ensures { result ≡ start_reset clock (suc removed) (stored left) start }
{
    match left {
        None => 0,
        Some(u) => {
            if removed < u {
                return clock + 1;
            }
            if removed == u {
                return numbers::greater(start, removed + 1);
            }
            start
        }
    }
}

// `body_reset`
fn body_reset(left: Option<u64>, body: u64) -> u64
    ensures { result ≡ body_reset (stored left) body }
{
    match left {
        None => 0,
        Some(_) => body,
    }
}

// `seat_reset`: an entry of the owner, asked at `removed`, has gone, and `left` is the oldest of those left. By `reset_in` of
// state_queue it is `reset_owner_queue_start`.
pub fn reset_owner_queue_start(
    words: &mut Words,
    owner: usize,
    removed: u64,
    clock: u64,
    left: Option<u64>,
)
    requires { (owner < 256) × (clock ≤ max_clock) × (removed ≤ max_clock) }
    ensures { decode words.new ≡ seat_reset owner removed clock (stored left) (decode words.old) }
{
    let start = start_of(words, owner);
    let body = body_of(words, owner);
    let s = start_reset(clock, removed, left, start);
    let b = body_reset(left, body);
    set_start(words, owner, s);
    set_body(words, owner, b);
}

// `start_noted`, on the word as it is stored: an Option of it would be made and stored again.
fn noted(clock: u64, start: u64) -> u64
    requires { clock ≤ max_clock }
    ensures { result ≡ start_noted clock start }
{
    if start == 0 {
        return clock + 1;
    }
    start
}

// `owner_downloading_since.entry(seat).or_insert(clock)`
pub fn note_start(words: &mut Words, seat: usize, clock: u64)
    requires { (seat < 256) × (clock ≤ max_clock) }
    ensures { decode words.new ≡ with_starts (set (decode words.old).starts seat (start_noted clock (get_or (decode words.old).starts seat 0))) (decode words.old) }
{
    let start = start_of(words, seat);
    let s = noted(clock, start);
    set_start(words, seat, s);
}

// `owner_last_body_at.insert(seat, clock)`
pub fn note_body(words: &mut Words, seat: usize, clock: u64)
    requires { (seat < 256) × (clock ≤ max_clock) }
    ensures { decode words.new ≡ with_bodies (set (decode words.old).bodies seat (suc clock)) (decode words.old) }
{
    set_body(words, seat, clock + 1);
}

// ---- all seats

fn count_present(col: &[u64]) -> u64
    ensures { result ≡ count present col.now }
{
    let mut n = 0;
    for word in col {
        if *word != 0 {
            n += 1;
        }
    }
    n
}

// `active_downloading_peers`
pub fn active_downloading_peers(words: &Words) -> u64
    ensures { result ≡ active_downloading_peers (decode words.now).starts }
{
    count_present(&words[at::STARTS..at::BODIES])
}

// How many racers there are.
pub fn racers_left(words: &Words) -> u64
    ensures { result ≡ count present (decode words.now).racers }
{
    count_present(&words[at::RACERS..at::HEAD])
}

// By the word, as the flags are C's: nonzero keeps.
fn kept_word(flag: u64, word: u64) -> u64
    ensures { result ≡ cond (not (eqb flag 0)) word 0 }
{
    if flag == 0 {
        return 0;
    }
    word
}

// `keep_seats` by flags, nonzero for a seat that is kept.
fn keep_flagged(col: &mut [u64], flags: &[u64])
    requires { length flags.now ≡ length col.old }
    ensures { col.new ≡ keep_seats (flagged flags.now) 0 col.old }
{
    for (i, word) in col.iter_mut().enumerate() {
        *word = kept_word(flags[i], *word);
    }
}

// `kept_seats`: starts and last bodies, entries or none.
pub fn keep_seats(words: &mut Words, flags: &PerSeat)
    ensures { decode words.new ≡ kept_seats flags.now (decode words.old) }
{
    keep_flagged(&mut words[at::STARTS..at::BODIES], flags);
    keep_flagged(&mut words[at::BODIES..at::KEYS], flags);
}

pub fn keep_racers(words: &mut Words, flags: &PerSeat)
    ensures { decode words.new ≡ with_racers (keep_seats (flagged flags.now) 0 (decode words.old).racers) (decode words.old) }
{
    keep_flagged(&mut words[at::RACERS..at::HEAD], flags);
}

pub fn clear_racers(words: &mut Words)
    ensures { decode words.new ≡ with_racers no_seats (decode words.old) }
{
    column::clear_from(&mut words[at::RACERS..at::HEAD], 0);
}

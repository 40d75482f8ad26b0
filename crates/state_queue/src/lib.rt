// The entries in words that hold a window, one out, one in or some kept, and the seats' starts and last bodies. Contracts as in `state`.
#![tactic(auto)]

ghost use Rattle.std.specs.Prelude.{◌≡◌, ◌+◌, ◌-◌, ◌<◌, ◌≤◌, length, get_or, take};
ghost use Rattle.model.specs.Numbers.{max_clock};
ghost use Rattle.column.specs.Edits.{remove_at, insert_at, keep_by};
ghost use Rattle.model.specs.Records.{lowest, at_height, pending_count_for};
ghost use Rattle.model.specs.Seats.{oldest, reset_owner_queue_start, keep_seats};
ghost use Rattle.model.specs.Pace.{was_front};
ghost use Rattle.model.specs.LettingGo.{flagged};
ghost use Rattle.model.specs.Calls.{started, body_noted};
ghost use Rattle.model.specs.Layout.{window_of, blank};
ghost use Rattle.model.specs.Window.{queue, with_queue, with_high};
ghost use Rattle.laws.specs.Whole.{Whole, Holds};
ghost use Rattle.records.specs.Places.{Finds, stored, floored};
ghost use Rattle.state_queue.specs.Steps.{entries_put, start_floor};

use model::{Entry, Hash, PerPlace, PerSeat, Words, head};

// ---- the entries read

pub fn pending_count(words: &Words) -> usize
    requires { Whole words.now }
    ensures { (result ≡ length (window_of words.now).queue.pending) × (result ≤ 256) }
{
    layout::word_of(words, head::COUNT) as usize
}

pub fn entry_at(words: &Words, i: usize) -> Entry
    requires { Whole words.now × (i < length (window_of words.now).queue.pending) }
    ensures { result ≡ get_or (window_of words.now).queue.pending i blank }
{
    records::entry_of(words, i)
}

// The place of a hash, or else where it would go.
pub fn find(words: &Words, h: Hash) -> Result<usize, usize>
    requires { Whole words.now }
    ensures { Finds h (window_of words.now).queue.pending result }
{
    let n = pending_count(words);
    records::find(words, n, h)
}

pub fn lowest(words: &Words) -> Option<Entry>
    requires { Whole words.now }
    ensures { result ≡ lowest (window_of words.now).queue.pending }
{
    let n = pending_count(words);
    records::lowest(words, n)
}

pub fn at_height(words: &Words, height: u64) -> Option<Entry>
    requires { Whole words.now }
    ensures { result ≡ at_height height (window_of words.now).queue.pending }
{
    let n = pending_count(words);
    records::at_height(words, n, height)
}

pub fn was_front(words: &Words, height: u64) -> bool
    requires { Whole words.now }
    ensures { result ≡ was_front height (window_of words.now).queue.pending }
{
    let n = pending_count(words);
    records::was_front(words, n, height)
}

pub fn pending_count_for(words: &Words, owner: u64) -> u64
    requires { Whole words.now }
    ensures { result ≡ pending_count_for owner (window_of words.now).queue.pending }
{
    let n = pending_count(words);
    records::pending_count_for(words, n, owner)
}

// The owner's oldest, no lower than a floor.
pub fn oldest_from(words: &Words, owner: u64, floor: u64) -> Option<u64>
    requires { Whole words.now }
    ensures { stored result ≡ floored floor (oldest owner (window_of words.now).queue.pending) }
{
    let n = pending_count(words);
    records::oldest_from(words, n, owner, floor)
}

// ---- one out, one in, some kept

// The entry at a place goes out. By `without_is` the queue is `without` it, where the place is that of its hash.
pub fn take_out(words: &mut Words, at: usize)
    requires { Whole words.old × ((at < length (window_of words.old).queue.pending) × ((get_or (window_of words.old).queue.pending at blank).estimate ≤ (window_of words.old).queue.total)) }
    ensures { Holds (entries_put ((window_of words.old).queue.total - (get_or (window_of words.old).queue.pending at blank).estimate) (remove_at at (window_of words.old).queue.pending) (window_of words.old)) words.new }
{
    let e = entry_at(words, at);
    let total = layout::word_of(words, head::TOTAL);
    let left = total - e.estimate;
    let n = layout::word_of(words, head::COUNT);
    let count = n - 1;
    records::remove(words, n as usize, at);
    layout::set_word(words, head::COUNT, count);
    layout::set_word(words, head::TOTAL, left);
}

// An entry goes in at a place. By `put_is` the queue is that of `put`, where the place is the one for its hash.
pub fn put_at(words: &mut Words, at: usize, e: Entry)
    requires { Whole words.old × ((at ≤ length (window_of words.old).queue.pending) × ((length (window_of words.old).queue.pending < 256) × ((window_of words.old).queue.total + e.estimate ≤ 18446744073709551615))) }
    ensures { Holds (entries_put ((window_of words.old).queue.total + e.estimate) (insert_at at e (window_of words.old).queue.pending) (window_of words.old)) words.new }
{
    let total = layout::word_of(words, head::TOTAL);
    let more = total + e.estimate;
    let n = layout::word_of(words, head::COUNT);
    let count = n + 1;
    records::insert(words, n as usize, at, e);
    layout::set_word(words, head::COUNT, count);
    layout::set_word(words, head::TOTAL, more);
}

// The entries whose mark is 0, which are `count`, stay. By `kept-marks` they are those that `kept` keeps. Where none stays, as where a sweep takes all,
// no mark is read.
pub fn keep_entries(words: &mut Words, marks: &PerPlace, count: u64, total: u64)
    requires { Whole words.old × (count ≡ length (keep_by (take (length (window_of words.old).queue.pending) marks.now) (window_of words.old).queue.pending)) }
    ensures { Holds (entries_put total (keep_by (take (length (window_of words.old).queue.pending) marks.now) (window_of words.old).queue.pending) (window_of words.old)) words.new }
{
    if count == 0 {
        records::clear(words);
        layout::set_word(words, head::COUNT, 0);
        layout::set_word(words, head::TOTAL, total);
        return;
    }
    records::keep(words, marks);
    layout::set_word(words, head::COUNT, count);
    layout::set_word(words, head::TOTAL, total);
}

// ---- the seats

// `start_floor`: where the oldest that is left is no later than this, the start stays as it is.
fn start_floor(start: u64, removed: u64) -> u64
    requires { removed ≤ max_clock }
    ensures { result ≡ start_floor start removed }
{
    if removed < start {
        return removed + 1;
    }
    removed
}

// `reset_owner_queue_start`: an entry of the owner, asked at `removed`, has gone. The oldest that is left is sought only down to the floor: in most windows
// another entry was asked together with the one that went, and the first of them ends the search.
pub fn reset_owner_queue_start(words: &mut Words, owner: usize, removed: u64, clock: u64)
    requires { Whole words.old × ((owner < 256) × ((clock ≤ max_clock) × (removed ≤ max_clock))) }
    ensures { Holds (with_queue (reset_owner_queue_start owner removed clock (window_of words.old).queue) (window_of words.old)) words.new }
{
    let start = seats::start_of(words, owner);
    let floor = start_floor(start, removed);
    let left = oldest_from(words, owner as u64, floor);
    seats::reset_owner_queue_start(words, owner, removed, clock, left);
}

// `started`
pub fn note_start(words: &mut Words, owner: usize, clock: u64)
    requires { Whole words.old × ((owner < 256) × (clock ≤ max_clock)) }
    ensures { Holds (with_queue (started owner clock (window_of words.old).queue) (window_of words.old)) words.new }
{
    seats::note_start(words, owner, clock);
}

// `body_noted`
pub fn note_body(words: &mut Words, source: usize, clock: u64)
    requires { Whole words.old × ((source < 256) × (clock ≤ max_clock)) }
    ensures { Holds (body_noted source clock (window_of words.old)) words.new }
{
    seats::note_body(words, source, clock);
}

// Starts and last bodies of the seats that have a flag.
pub fn keep_seats(words: &mut Words, flags: &PerSeat)
    requires { Whole words.old }
    ensures { Holds (with_queue (queue (window_of words.old).queue.total (window_of words.old).queue.pending (keep_seats (flagged flags.now) 0 (window_of words.old).queue.starts) (keep_seats (flagged flags.now) 0 (window_of words.old).queue.bodies)) (window_of words.old)) words.new }
{
    seats::keep_seats(words, flags);
}

// ---- the high waters

pub fn set_high(words: &mut Words, blocks: u64, bytes: u64)
    requires { Whole words.old }
    ensures { Holds (with_high (record { blocks = blocks; bytes = bytes }) (window_of words.old)) words.new }
{
    let l = [blocks, bytes];
    layout::store_at(words, head::HIGH_BLOCKS, &l);
}

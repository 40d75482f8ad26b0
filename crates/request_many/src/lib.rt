// A request of many entries, in words that hold a window: where `request_order` finds the order of all rows, every record is written once, from
// the last to the first. Contracts as in `requests`; the last clock is not set here.
#![tactic(auto)]

ghost use Rattle.std.specs.Prelude.{◌≡◌, ◌+◌, ◌<◌, ◌≤◌, length, take, set};
ghost use Rattle.model.specs.Numbers.{max_estimate, max_seat};
ghost use Rattle.model.specs.Lists.{pad};
ghost use Rattle.model.specs.Calls.{asks_in, mark_requested};
ghost use Rattle.model.specs.Layout.{decode, window_of, blank};
ghost use Rattle.laws.specs.Kept.{Requestable};
ghost use Rattle.laws.specs.Sound.{Sound};
ghost use Rattle.laws.specs.Tables.{with_entries};
ghost use Rattle.laws.specs.Whole.{Whole, Holds};
ghost use Rattle.requests.specs.Puts.{Ready};
ghost use Rattle.requests.specs.Rows.{filled};
ghost use Rattle.request_order.specs.Order.{Ordered};
ghost use Rattle.request_order.specs.Rows.{row_at, in_order};
ghost use Rattle.request_many.specs.Fill.{Fillable};

use model::{Entry, Words, head, sizes};

// ---- every record once

// `row_at`: a record, or an ask as the entry that it becomes.
fn row_entry(
    words: &Words,
    hashes: &[u64],
    heights: &[u32],
    m: usize,
    row: usize,
    owner: u64,
    clock: u64,
    mean: u64,
) -> Entry
    requires { (m ≤ 256) × (row < m + length (asks_in hashes.now heights.now)) }
    ensures { result ≡ row_at (take m (decode words.now).entries) hashes.now heights.now owner clock mean row }
{
    if row < m {
        return records::entry_of(words, row);
    }
    let k = row - m;
    let hash = requests::hash_in(hashes, 4 * k);
    let height = heights[k] as u64;
    requests::new_entry(hash, owner, clock, height, mean)
}

// An entry written at a place.
fn put_row(words: &mut Words, at: usize, e: Entry)
    requires { at < 256 }
    ensures { decode words.new ≡ with_entries (set (decode words.old).entries at e) (decode words.old) }
{
    for k in 0..sizes::COLUMNS {
        let a = sizes::PLACES * k;
        let z = a + sizes::PLACES;
        let v = records::field_of(e, k);
        column::store(&mut words[a..z], at, v);
    }
}

// The rows in their order, from the last down: a record moves up only, so that none is written over before it is read.
fn fill(
    words: &mut Words,
    hashes: &[u64],
    heights: &[u32],
    order: &[u64],
    m: usize,
    total: usize,
    owner: u64,
    clock: u64,
    mean: u64,
)
    requires { Fillable words.old hashes.now heights.now order.now m total }
    ensures { decode words.new ≡ with_entries (pad 256 blank (in_order (take m (decode words.old).entries) hashes.now heights.now owner clock mean total order.now)) (decode words.old) }
{
    for j in (0..total).rev() {
        let row = order[j] as usize;
        let e = row_entry(words, hashes, heights, m, row, owner, clock, mean);
        put_row(words, j, e);
    }
}

// `filled`: `puts` at once.
fn fill_all(
    words: &mut Words,
    hashes: &[u64],
    heights: &[u32],
    order: &[u64],
    m: usize,
    n: usize,
    owner: u64,
    clock: u64,
)
    requires { Whole words.old
        × (((window_of words.old).mean ≤ max_estimate)
        × (Ready (asks_in hashes.now heights.now) (window_of words.old).queue
        × ((m ≡ length (window_of words.old).queue.pending)
        × ((n ≡ length (asks_in hashes.now heights.now)) × Ordered (window_of words.old).queue.pending hashes.now (m + n) order.now)))) }
    ensures { Holds (filled (asks_in hashes.now heights.now) owner clock (window_of words.old)) words.new }
{
    let mean = state::get_mean(words);
    let before = state::get_total(words);
    let bytes = before + n as u64 * mean;
    let count = m + n;
    fill(words, hashes, heights, order, m, count, owner, clock, mean);
    layout::set_word(words, head::COUNT, count as u64);
    layout::set_word(words, head::TOTAL, bytes);
}

// ---- the request

// `mark_requested`, in the order that was found.
pub fn mark_in_order(
    words: &mut Words,
    hashes: &[u64],
    heights: &[u32],
    order: &[u64],
    m: usize,
    n: usize,
    owner: u64,
    next: u32,
    clock: u64,
)
    requires { (Whole words.old × (Sound clock (window_of words.old) × (Requestable (asks_in hashes.now heights.now) (window_of words.old) × (owner ≤ max_seat))))
        × ((m ≡ length (window_of words.old).queue.pending)
        × ((n ≡ length (asks_in hashes.now heights.now)) × Ordered (window_of words.old).queue.pending hashes.now (m + n) order.now)) }
    ensures { Holds (mark_requested (asks_in hashes.now heights.now) owner next clock (window_of words.old)) words.new }
{
    requests::forget_attempted(words, n);
    fill_all(words, hashes, heights, order, m, n, owner, clock);
    requests::close(words, n, owner, next as u64, clock);
}

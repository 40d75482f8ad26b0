// Many records let go at once: those that are marked go out in order, with total and frontier; then each resets its owner's start, by a table of
// the oldest request that every seat has left, filled once.
#![tactic(auto)]

ghost use Rattle.std.specs.Prelude.{◌≡◌, ◌<◌, ◌≤◌, length};
ghost use Rattle.model.specs.Numbers.{max_clock};
ghost use Rattle.model.specs.Seats.{sooner};
ghost use Rattle.model.specs.LettingGo.{resets};
ghost use Rattle.model.specs.Layout.{decode, window_of};
ghost use Rattle.model.specs.Window.{with_queue};
ghost use Rattle.laws.specs.Whole.{Whole, Holds};
ghost use Rattle.laws.specs.Sound.{InRange};
ghost use Rattle.laws.specs.Batches.{batch};
ghost use Rattle.laws.specs.Marks.{extract_by};
ghost use Rattle.laws.specs.Pending.{Ranged};
ghost use Rattle.records.specs.Places.{stored};
ghost use Rattle.report_words.specs.Report.{releases_of};
ghost use Rattle.batch.specs.Resets.{Oldests, Went, seats_of};

use model::{Gone, PerPlace, Words, at, of_release, sizes};

// ---- the oldest request that each seat has left

// `sooner`, of stored times
fn sooner_stored(t: u64, u: u64) -> u64
    ensures { result ≡ sooner t u }
{
    if u == 0 {
        return t;
    }
    numbers::lesser(t, u)
}

// `oldest`, of every seat
fn oldest_left(words: &Words, count: usize) -> [u64; sizes::SEATS]
    requires { (count ≡ length (window_of words.now).queue.pending) × Ranged (window_of words.now) }
    ensures { Oldests result (window_of words.now).queue.pending }
{
    let mut left = [0; sizes::SEATS];
    for i in (0..count).rev() {
        let o = words[i + at::OWNERS];
        let owner = o as usize;
        left[owner] = sooner_stored(words[i + at::TIMES] + 1, left[owner]);
    }
    left
}

// ---- resets

fn left_of(s: u64) -> Option<u64>
    ensures { stored result ≡ s }
{
    s.checked_sub(1)
}

// `resets`, over the first `n` releases.
fn reset_all(words: &mut Words, gone: &Gone, n: usize, clock: u64, left: &[u64; sizes::SEATS])
    requires { (n ≤ 256) × (clock ≤ max_clock) × Went (InRange max_clock) (releases_of n gone.now) × (Oldests left.now (window_of words.old).queue.pending) }
    ensures { decode words.new ≡ seats_of (resets clock (releases_of n gone.now) (window_of words.old).queue) (decode words.old) }
{
    for i in 0..n {
        let a = sizes::RELEASE_WORDS * i;
        let o = gone[a + of_release::OWNER];
        let owner = o as usize;
        let l = left_of(left[owner]);
        seats::reset_owner_queue_start(words, owner, gone[a + of_release::TIME], clock, l);
    }
}

// `resets`, over what went.
pub fn reset_gone(words: &mut Words, gone: &Gone, n: usize, clock: u64)
    requires { Whole words.old × Ranged (window_of words.old) × (n ≤ 256) × (clock ≤ max_clock) × Went (InRange max_clock) (releases_of n gone.now) }
    ensures { Holds (with_queue (resets clock (releases_of n gone.now) (window_of words.old).queue) (window_of words.old)) words.new }
{
    let count = state_queue::pending_count(words);
    let left = oldest_left(words, count);
    reset_all(words, gone, n, clock, &left);
}

// ---- marked records out

// `extract_by`: the records whose mark is not 0 go. Answers how many. Where there are none, as in most sweeps, no column is walked (`extract_none`).
pub fn take_marked(words: &mut Words, gone: &mut Gone, marks: &PerPlace) -> usize
    requires { Whole words.old }
    ensures { (result ≤ 256)
        × (Holds (extract_by marks.now (window_of words.old)).window words.new)
        × (releases_of result gone.new ≡ (extract_by marks.now (window_of words.old)).gone) }
{
    let count = state_queue::pending_count(words);
    let n = report_words::gather(words, count, marks, gone);
    if n == 0 {
        return 0;
    }
    let total = state::get_total(words);
    let frontier = state::get_frontier(words);
    let t = report_words::totals_after(gone, n, total, frontier);
    let left = count - n;
    state_queue::keep_entries(words, marks, left as u64, t.total);
    state::set_frontier(words, t.frontier);
    n
}

// `batch` of `extract_by`: what is marked goes, then each resets its owner's start.
pub fn let_go(words: &mut Words, gone: &mut Gone, marks: &PerPlace, clock: u64) -> usize
    requires { Whole words.old × Ranged (window_of words.old) × (clock ≤ max_clock) }
    ensures { (result ≤ 256)
        × (Holds (batch clock (extract_by marks.now (window_of words.old))).window words.new)
        × (releases_of result gone.new ≡ (extract_by marks.now (window_of words.old)).gone) }
{
    let n = take_marked(words, gone, marks);
    if n == 0 {
        return 0;
    }
    reset_gone(words, gone, n, clock);
    n
}

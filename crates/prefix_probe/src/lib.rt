// SPECIFICATION 6.8: the prefix probe, in words that hold a window. The last clock is not set here.
#![tactic(auto)]

ghost use Rattle.std.specs.Prelude.{◌≡◌, cond, ◌&&◌, ◌≤◌, ◌<◌, length, get_or, eqb};
ghost use Rattle.model.specs.Numbers.{max_height};
ghost use Rattle.model.specs.Layout.{window_of, blank};
ghost use Rattle.laws.specs.Whole.{Whole};
ghost use Rattle.prefix_probe.specs.Walks.{behind, follows, Walked};

use model::{Words, sizes};

// How far the walk went: the number of entries, their places, the height expected next.
#[derive(Clone, Copy)]
pub struct Walk {
    pub n: usize,
    pub places: [usize; sizes::PROBED],
    pub end: u64,
}

// `behind`
fn is_behind(mark: u64, height: u64, expected: u64) -> bool
    ensures { result ≡ behind mark height expected }
{
    if mark != 0 {
        return false;
    }
    height < expected
}

// `follows`
fn follows(mark: u64, height: u64, expected: u64) -> bool
    ensures { result ≡ follows mark height expected }
{
    if mark != 0 {
        return false;
    }
    height == expected
}

// One more follows, and there is no room for it.
fn at_limit(here: bool, n: usize, limit: usize) -> bool
    ensures { result ≡ here && eqb n limit }
{
    here & (n == limit)
}

// The search is at its end, and no entry follows.
fn at_gap(i: usize, at: usize, count: usize) -> bool
    ensures { result ≡ eqb i 0 && eqb at count }
{
    (i == 0) & (at == count)
}

fn nearer(here: bool, i: usize, at: usize) -> usize
    ensures { result ≡ cond here i at }
{
    if here {
        return i;
    }
    at
}

fn height_at(words: &Words, i: usize) -> u64
    requires { Whole words.now × (i < length (window_of words.now).queue.pending) }
    ensures { result ≡ (get_or (window_of words.now).queue.pending i blank).height }
{
    let e = state_queue::entry_at(words, i);
    e.height
}

// `walk` of the entries by height: while entries are left, each turn searches them for the one at the height expected. The walk is left from inside the
// search: at an entry that is behind, at the limit, and at the first gap.
pub fn walk_up(words: &Words, limit: usize, first: u64) -> Walk
    requires { Whole words.now × ((limit ≤ 8) × (first ≤ max_height)) }
    ensures { Walked limit first (window_of words.now).queue.pending result.n result.places result.end }
{
    let count = state_queue::pending_count(words);
    let mut marks: [u64; sizes::PLACES] = [0; sizes::PLACES];
    let mut places: [usize; sizes::PROBED] = [0; sizes::PROBED];
    let mut n = 0;
    let mut expected = first;
    'walk: for turn in 0..count {
        let mut at = count;
        for i in (0..count).rev() {
            let mark = marks[i];
            let x = height_at(words, i);
            if is_behind(mark, x, expected) {
                break 'walk;
            }
            let here = follows(mark, x, expected);
            if at_limit(here, n, limit) {
                break 'walk;
            }
            at = nearer(here, i, at);
            if at_gap(i, at, count) {
                break 'walk;
            }
        }
        marks[at] = 1;
        places[n] = at;
        n = turn + 1;
        expected = numbers::next_height(expected);
    }
    Walk {
        n,
        places,
        end: expected,
    }
}

// Request 02, below the scan: the frontier rewound, and what the scan does at one height, over words that hold a window. Staged and refused hashes are
// lists with an index each (crate `listed`); the plan is in two lent lists, `hashes` and `heights`, with its own index.
#![tactic(auto)]

ghost use Rattle.std.specs.Prelude.{◌≡◌, not, ◌&&◌, ◌||◌, ◌+◌, ◌*◌, ◌<◌, ◌≤◌, length, take, drop, ltb};
ghost use Rattle.model.specs.Numbers.{max_height};
ghost use Rattle.model.specs.Lists.{any};
ghost use Rattle.model.specs.Hash.{same, hashes_in};
ghost use Rattle.model.specs.Records.{found, is_there};
ghost use Rattle.model.specs.Planning.{names};
ghost use Rattle.model.specs.Layout.{window_of};
ghost use Rattle.listed.specs.Index.{Indexed};
ghost use Rattle.plan_look.specs.Scan.{look_of};
ghost use Rattle.plan_look.specs.Plan.{count_after, first_after, next_past, TakenAt};
ghost use Rattle.plan_look.specs.Steps.{first_open, Rewinds, Asked};

use listed::Listed;
use model::sizes::HASH_WORDS;
use model::{Hash, Words};

// What the scan does at a height.
#[derive(Clone, Copy)]
pub enum Look {
    PassBy,
    NoteRefused,
    Take,
}

// ---- the frontier

// `is_open`
fn is_open(words: &Words, staged: Listed, h: Hash) -> bool
    requires { Asked words.now }
    ensures { result ≡ not (is_there (found h (window_of words.now).queue.pending) || names staged.entry.hashes.now h) }
{
    if queries::contains_pending(words, h) {
        return false;
    }
    !staged.names(h)
}

// Whether the frontier is above `start`, whose hash is open.
fn is_rewound(words: &Words, chain: &[u64], staged: Listed, start: u64) -> bool
    requires { Asked words.now }
    ensures { result ≡ (ltb start (window_of words.now).frontier && first_open (window_of words.now).queue.pending staged.entry.hashes.now (drop start (hashes_in chain.now))) }
{
    let frontier = state::get_frontier(words);
    if frontier <= start {
        return false;
    }
    let at = start as usize;
    if chain.len() / HASH_WORDS <= at {
        return false;
    }
    let h = requests::hash_in(chain, HASH_WORDS * at);
    is_open(words, staged, h)
}

// `maybe_rewind_request_frontier`
pub fn maybe_rewind_request_frontier(words: &mut Words, chain: &[u64], staged: Listed, start: u64)
    requires { Asked words.old }
    ensures { Rewinds chain.now staged.entry.hashes.now start words.old words.new }
{
    if is_rewound(words, chain, staged, start) {
        state::set_frontier(words, start);
    }
}

// ---- one height

// `look_of` a hash: whether it is pending, staged or in the plan, and whether it is refused.
pub fn look_at(
    words: &Words,
    staged: Listed,
    refused: Listed,
    hashes: &[u64],
    index: &[u32],
    n: usize,
    h: Hash,
) -> Look
    requires { Asked words.now × (Indexed n hashes.now index.now × (4 * n ≤ length hashes.now)) }
    ensures { result ≡ look_of (is_there (found h (window_of words.now).queue.pending) || names staged.entry.hashes.now h || any (same h) (take n (hashes_in hashes.now))) (names refused.entry.hashes.now h) }
{
    if !is_open(words, staged, h) {
        return Look::PassBy;
    }
    if listed::names_first(index, hashes, n, h) {
        return Look::PassBy;
    }
    if refused.names(h) {
        return Look::NoteRefused;
    }
    Look::Take
}

impl Look {
    pub fn count_after(self, n: usize) -> usize
        requires { n < 256 }
        ensures { result ≡ count_after self n }
    {
        match self {
            Look::PassBy => n,
            Look::NoteRefused => n,
            Look::Take => n + 1,
        }
    }

    // The first one noted is the lowest, since heights rise.
    pub fn first_after(self, first: Option<u64>, height: u64) -> Option<u64>
        ensures { result ≡ first_after self first height }
    {
        match self {
            Look::PassBy => first,
            Look::NoteRefused => first.or(Some(height)),
            Look::Take => first,
        }
    }

    pub fn next_past(self, next: u64, height: u64) -> u64
        requires { height ≤ max_height }
        ensures { result ≡ next_past self next height }
    {
        match self {
            Look::PassBy => next,
            Look::NoteRefused => next,
            Look::Take => numbers::greater(next, numbers::next_height(height)),
        }
    }

    // Where it takes, the hash goes into the plan with its height, and into the plan's index.
    pub fn take_at(
        self,
        hashes: &mut [u64],
        heights: &mut [u32],
        index: &mut [u32],
        n: usize,
        h: Hash,
        height: u64,
    )
        requires { Indexed n hashes.old index.old × ((4 * n + 4 ≤ length hashes.old) × ((n < length heights.old) × (height ≤ max_height))) }
        ensures { TakenAt self n h height hashes.old heights.old hashes.new heights.new index.new }
    {
        match self {
            Look::PassBy => {}
            Look::NoteRefused => {}
            Look::Take => plan_lists::put_ask(hashes, heights, index, n, h, height),
        }
    }
}

// Request 02, without refusals and lent report: the next request is planned, in words that hold a window. What the sweep lets go is written, nine words
// each, in `gone`, the plan in `hashes` and `heights`. The last clock is not set here: the public call does that last.
#![tactic(auto)]

ghost use Rattle.std.specs.Prelude.{◌≡◌, ◌≤◌, None};
ghost use Rattle.model.specs.Layout.{window_of};
ghost use Rattle.model.specs.Planning.{next_peer_request, next_peer_request_allowing_retry};
ghost use Rattle.planning.specs.Proposes.{lent_by, planned_by, Ready, Proposes};
ghost use Rattle.planning.specs.Swept.{Swept, Requests, RequestsAfter};

use listed::Listed;
use model::{Gone, NextRequest, Words, sizes};

// What is lent and said for one plan, beside the words and the plan's own lists. Each list has four words a hash.
#[derive(Clone, Copy)]
pub struct Given<'a> {
    pub chain: &'a [u64],
    pub tip: u32,
    pub start: u32,
    pub best: u32,
    pub floor: u32,
    pub staged: &'a [u64],
    pub refused: &'a [u64],
    pub exhausted: bool,
    pub byte_headroom: u64,
    pub count_headroom: u64,
}

// No request, of so many that were swept.
fn no_request(n: usize) -> NextRequest
    ensures { (result.places ≡ n) × (result.request ≡ None) }
{
    NextRequest {
        places: n as u64,
        request: None,
    }
}

// ---- the indexes of the lists, in local arrays of two sizes

// The links for lists of some hashes, and those lists' words.
const FEW_LINKS: usize = 1024;

const FEW_WORDS: usize = FEW_LINKS * sizes::HASH_WORDS;

// The links for longer lists: thirty-two times the blocks that the Rust's own budget lets be staged. What a list has beyond is looked through. Both sizes
// together are in the frame of every plan, so that more would cost each of them.
const MANY_LINKS: usize = 8192;

const FEW: usize = listed::BUCKETS + FEW_LINKS;

const MANY: usize = listed::BUCKETS + MANY_LINKS;

// The index of a plan.
const PLAN: usize = listed::BUCKETS + sizes::PLACES;

// ---- a request by a capacity

// `request_by` a capacity: the swept ones, the frontier, then the scan. The indexes of the staged and of the refused have so many words.
fn plan_with<const N: usize>(
    words: &mut Words,
    gone: &Gone,
    n: usize,
    hashes: &mut [u64],
    heights: &mut [u32],
    given: Given,
    batch: u64,
    bytes: u64,
) -> NextRequest
    requires { (Swept n words.old gone.now hashes.old heights.old (lent_by given) × (batch ≤ 256)) × ((1024 ≤ N) × (N ≤ 4294967296)) }
    ensures { Requests n words.old gone.now (lent_by given.entry) batch bytes result words.new hashes.old hashes.new heights.old heights.new }
{
    let mut index: [u32; PLAN] = [0; PLAN];
    let mut staged_index: [u32; N] = [0; N];
    let mut refused_index: [u32; N] = [0; N];
    listed::clear(&mut index);
    let staged = Listed::new(given.staged, &mut staged_index);
    let refused = Listed::new(given.refused, &mut refused_index);
    let d = retries::expired_request_entries(
        words,
        gone,
        n,
        hashes,
        heights,
        &mut index,
        staged,
        refused,
        given.floor as u64,
        batch as usize,
        bytes,
    );
    plan_look::maybe_rewind_request_frontier(words, given.chain, staged, given.start as u64);
    let s = plan_scan::scan_of(
        words,
        given.tip as u64,
        given.start as u64,
        given.best as u64,
        given.floor as u64,
        batch,
        d.count,
        d.bytes,
    );
    let request = plan_scan::request_from(
        words,
        given.chain,
        staged,
        refused,
        hashes,
        heights,
        &mut index,
        s,
        d.count,
        d.low,
    );
    NextRequest {
        places: n as u64,
        request,
    }
}

// `request_by` a capacity.
fn request_by(
    words: &mut Words,
    gone: &Gone,
    n: usize,
    hashes: &mut [u64],
    heights: &mut [u32],
    given: Given,
    batch: u64,
    bytes: u64,
) -> NextRequest
    requires { Swept n words.old gone.now hashes.old heights.old (lent_by given) × (batch ≤ 256) }
    ensures { Requests n words.old gone.now (lent_by given.entry) batch bytes result words.new hashes.old hashes.new heights.old heights.new }
{
    if (given.staged.len() <= FEW_WORDS) & (given.refused.len() <= FEW_WORDS) {
        return plan_with::<FEW>(words, gone, n, hashes, heights, given, batch, bytes);
    }
    plan_with::<MANY>(words, gone, n, hashes, heights, given, batch, bytes)
}

// `request_after`: n were swept.
fn request_after(
    words: &mut Words,
    gone: &Gone,
    n: usize,
    hashes: &mut [u64],
    heights: &mut [u32],
    source: u64,
    given: Given,
) -> NextRequest
    requires { Swept n words.old gone.now hashes.old heights.old (lent_by given) }
    ensures { RequestsAfter source n words.old gone.now (lent_by given.entry) result words.new hashes.old hashes.new heights.old heights.new }
{
    let (byte_headroom, count_headroom) = (given.byte_headroom, given.count_headroom);
    match queries::compute_request_capacity(words, source, byte_headroom, count_headroom) {
        None => no_request(n),
        Some((batch, bytes)) => { request_by(words, gone, n, hashes, heights, given, batch, bytes) }
    }
}

// ---- the two that plan

// `next_peer_request_allowing_retry`
pub fn next_peer_request_allowing_retry(
    words: &mut Words,
    gone: &mut Gone,
    hashes: &mut [u64],
    heights: &mut [u32],
    source: u64,
    given: Given,
    clock: u64,
) -> NextRequest
    requires { Ready clock source words.old gone.old hashes.old heights.old (lent_by given) }
    ensures { Proposes (next_peer_request_allowing_retry source (lent_by given.entry) clock (window_of words.old)) result
        words.new gone.new hashes.old hashes.new heights.old heights.new }
{
    if given.exhausted {
        return no_request(0);
    }
    let n = sweep::expire_pending(words, gone, clock);
    request_after(words, gone, n, hashes, heights, source, given)
}

// `next_peer_request_allowing_retry`, or `next_peer_request`, by which an expired or cooling peer gets none.
pub fn next_peer_request(
    words: &mut Words,
    gone: &mut Gone,
    hashes: &mut [u64],
    heights: &mut [u32],
    source: u64,
    given: Given,
    retry: bool,
    clock: u64,
) -> NextRequest
    requires { Ready clock source words.old gone.old hashes.old heights.old (lent_by given) }
    ensures { Proposes (planned_by retry source (lent_by given.entry) clock (window_of words.old)) result
        words.new gone.new hashes.old hashes.new heights.old heights.new }
{
    if retry {
        return next_peer_request_allowing_retry(words, gone, hashes, heights, source, given, clock);
    }
    let seat = source as usize;
    let expired = sweep::peer_has_expired_pending(words, seat, clock);
    if expired {
        return no_request(0);
    }
    let cooling = state_cooling::in_cooldown(words, seat, clock);
    if cooling {
        return no_request(0);
    }
    next_peer_request_allowing_retry(words, gone, hashes, heights, source, given, clock)
}

// Request 02: what is left of a plan once the swept ones are in it and the frontier is rewound: the clean stretch and the scan, over words that hold a window.
// The chain is a list of four words a hash; the staged and refused hashes are lists with an index each (crate `listed`). The plan is in two lent lists,
// `hashes` and `heights`, with its own index; `count` asks are in them already.
#![tactic(auto)]

ghost use Rattle.std.specs.Prelude.{◌≡◌, cond, ◌&&◌, ◌+◌, ◌-◌, ◌<◌, ◌≤◌, eqb, ltb, leb};
ghost use Rattle.model.specs.Numbers.{lesser, greater, next_height, max_height};
ghost use Rattle.model.specs.Hash.{base};
ghost use Rattle.model.specs.Planning.{held_back};
ghost use Rattle.model.specs.Layout.{window_of};
ghost use Rattle.model.specs.Says.{request_values};
ghost use Rattle.plan_look.specs.Steps.{Asked};
ghost use Rattle.plan_scan.specs.Request.{is_unknown};
ghost use Rattle.plan_scan.specs.Promises.{Scannable, Scans, Plannable, Proposes, plan_numbers, scan_says, scan_at};

use listed::Listed;
use model::sizes::HASH_WORDS;
use model::{Request, Words};

// The Rust's `RequestScan`.
#[derive(Clone, Copy)]
pub struct RequestScan {
    pub height: u64,
    pub tip: u64,
    pub limit: u64,
    pub next: u64,
}

// How far the scan came: the asks in the plan, the first refused height that it met, the next height.
#[derive(Clone, Copy)]
struct Scanning {
    count: usize,
    first: Option<u64>,
    next: u64,
}

// `scan_of`: `batch` asks may be made, and `count` are in the plan, for which `bytes` are left.
pub fn scan_of(
    words: &Words,
    tip: u64,
    start: u64,
    best: u64,
    floor: u64,
    batch: u64,
    count: usize,
    bytes: u64,
) -> RequestScan
    requires { 0 < (window_of words.now).mean }
    ensures { (scan_says result ≡ scan_at tip start best floor batch count bytes (window_of words.now)) × (tip ≤ max_height → result.tip ≤ max_height) }
{
    let frontier = state::get_frontier(words);
    let mean = state::get_mean(words);
    let above = numbers::greater(start, frontier);
    let height = numbers::greater(above, floor);
    let top = numbers::lesser(tip, best);
    let room = batch.saturating_sub(count as u64);
    let limit = numbers::lesser(room, bytes / mean);
    RequestScan {
        height,
        tip: top,
        limit,
        next: frontier,
    }
}

// ---- the scan

// `scan_over` the heights from `from` to `last`, until the plan has `full` asks.
fn scan_chain(
    words: &Words,
    chain: &[u64],
    staged: Listed,
    refused: Listed,
    hashes: &mut [u64],
    heights: &mut [u32],
    index: &mut [u32],
    from: u64,
    last: u64,
    count: usize,
    full: usize,
    frontier: u64,
) -> Scanning
    requires { Asked words.now × Scannable chain.now hashes.old heights.old index.old last count full }
    ensures { Scans (window_of words.now).queue.pending chain.now staged.entry.hashes.now refused.entry.hashes.now hashes.old heights.old from last count full frontier hashes.new heights.new result }
{
    let mut n = count;
    let mut first = None;
    let mut next = frontier;
    for height in from..=last {
        if n == full {
            return Scanning {
                count: n,
                first,
                next,
            };
        }
        let h = requests::hash_in(chain, HASH_WORDS * height as usize);
        let k = plan_look::look_at(words, staged, refused, hashes, index, n, h);
        k.take_at(hashes, heights, index, n, h, height);
        n = k.count_after(n);
        first = k.first_after(first, height);
        next = k.next_past(next, height);
    }
    Scanning {
        count: n,
        first,
        next,
    }
}

// ---- the next height

// `reach` of a scan for `limit`, over what is pending, staged and taken
fn reach(height: u64, tip: u64, limit: u64, pending: usize, staged: usize, taken: usize) -> u64
    requires { (0 < limit) × (height + (limit + (pending + (staged + taken))) < base) }
    ensures { result ≡ lesser (height + (limit + (pending + (staged + taken)) - 1)) tip }
{
    let span = limit + (pending + (staged + taken)) as u64;
    numbers::lesser(height + (span - 1), tip)
}

// `held_back`
fn held_back(low: Option<u64>, frontier: u64, next: u64) -> u64
    ensures { result ≡ held_back low frontier next }
{
    match low {
        None => next,
        Some(n) => numbers::greater(numbers::lesser(next, n), frontier),
    }
}

// `ended`: past all that the peer has, where less was found than wanted.
fn ended(is_full: bool, next: u64, tip: u64) -> u64
    requires { tip ≤ max_height }
    ensures { result ≡ cond is_full next (greater next (next_height tip)) }
{
    if is_full {
        return next;
    }
    numbers::greater(next, numbers::next_height(tip))
}

// The next height after a scan: held back by what was refused among the swept ones, then by what the scan met.
fn next_scanned(
    is_full: bool,
    tip: u64,
    low: Option<u64>,
    first: Option<u64>,
    frontier: u64,
    next: u64,
) -> u64
    requires { tip ≤ max_height }
    ensures { result ≡ held_back first frontier (held_back low frontier (cond is_full next (greater next (next_height tip)))) }
{
    let end = ended(is_full, next, tip);
    let held = held_back(low, frontier, end);
    held_back(first, frontier, held)
}

// Whether nothing is taken, pending or staged, and no refused one was met: a clean stretch.
fn met_none(taken: usize, pending: usize, staged: usize, first: Option<u64>) -> bool
    ensures { result ≡ (eqb taken 0 && (eqb pending 0 && (eqb staged 0 && is_unknown first))) }
{
    (taken == 0) & ((pending == 0) & ((staged == 0) & first.is_none()))
}

// The next height: a clean stretch is not held back.
fn next_from(
    clean: bool,
    is_full: bool,
    last: u64,
    tip: u64,
    low: Option<u64>,
    first: Option<u64>,
    frontier: u64,
    next: u64,
) -> u64
    requires { (last ≤ max_height) × (tip ≤ max_height) }
    ensures { result ≡ cond clean (greater frontier (next_height last)) (held_back first frontier (held_back low frontier (cond is_full next (greater next (next_height tip))))) }
{
    if clean {
        return numbers::greater(frontier, numbers::next_height(last));
    }
    next_scanned(is_full, tip, low, first, frontier, next)
}

// ---- the request

// `non_empty_request`
fn non_empty_request(count: usize, next: u64) -> Option<Request>
    ensures { request_values result ≡ plan_numbers count next }
{
    if count == 0 {
        return None;
    }
    Some(Request {
        count: count as u64,
        next_height: next,
    })
}

// Whether there is a height to look at, and something is wanted.
fn scans(height: u64, tip: u64, limit: u64) -> bool
    ensures { result ≡ (leb height tip && ltb 0 limit) }
{
    (height <= tip) & (0 < limit)
}

// `request_from`, where there is something to scan.
fn request_by_scan(
    words: &Words,
    chain: &[u64],
    staged: Listed,
    refused: Listed,
    hashes: &mut [u64],
    heights: &mut [u32],
    index: &mut [u32],
    scan: RequestScan,
    count: usize,
    low: Option<u64>,
) -> Option<Request>
    requires { Asked words.now × (Plannable words.now chain.now hashes.old heights.old index.old scan count × ((scan.height ≤ scan.tip) × (0 < scan.limit))) }
    ensures { Proposes chain.now staged.entry.hashes.now refused.entry.hashes.now (window_of words.now) hashes.old heights.old scan count low hashes.new heights.new result }
{
    let pending = state_queue::pending_count(words);
    let held = staged.len();
    let last = reach(scan.height, scan.tip, scan.limit, pending, held, count);
    let full = count + scan.limit as usize;
    let r = scan_chain(
        words,
        chain,
        staged,
        refused,
        hashes,
        heights,
        index,
        scan.height,
        last,
        count,
        full,
        scan.next,
    );
    let clean = met_none(count, pending, held, r.first);
    let is_full = r.count == full;
    let next = next_from(
        clean, is_full, last, scan.tip, low, r.first, scan.next, r.next,
    );
    non_empty_request(r.count, next)
}

// `request_from`: asks and next height, of every step that leaves this window and every draft with this plan.
pub fn request_from(
    words: &Words,
    chain: &[u64],
    staged: Listed,
    refused: Listed,
    hashes: &mut [u64],
    heights: &mut [u32],
    index: &mut [u32],
    scan: RequestScan,
    count: usize,
    low: Option<u64>,
) -> Option<Request>
    requires { Asked words.now × Plannable words.now chain.now hashes.old heights.old index.old scan count }
    ensures { Proposes chain.now staged.entry.hashes.now refused.entry.hashes.now (window_of words.now) hashes.old heights.old scan count low hashes.new heights.new result }
{
    if !scans(scan.height, scan.tip, scan.limit) {
        let next = held_back(low, scan.next, scan.next);
        return non_empty_request(count, next);
    }
    request_by_scan(
        words, chain, staged, refused, hashes, heights, index, scan, count, low,
    )
}

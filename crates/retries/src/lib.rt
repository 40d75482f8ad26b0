// SPECIFICATION 16: the first entries of a plan, which are what was swept and is asked for again, by rising height.
#![tactic(auto)]

ghost use Rattle.std.specs.Prelude.{◌≡◌, true, ◌-◌, ◌%◌, ◌<◌, length, get_or, take};
ghost use Rattle.model.specs.Layout.{window_of, rising};
ghost use Rattle.model.specs.Planning.{ask, lower_of, swept_asks};
ghost use Rattle.laws.specs.Whole.{Whole};
ghost use Rattle.report_words.specs.Report.{releases_of};
ghost use Rattle.swept_order.specs.Keys.{entry_from, asks_by};
ghost use Rattle.retries.specs.Retries.{full, passed_by, retries, Lends, Drafted};

use listed::Listed;
use model::{Gone, Hash, PerPlace, Words, of_release, sizes};

// What a plan has come to: its entries, the bytes left, the lowest refused height.
#[derive(Clone, Copy)]
pub struct Draft {
    pub count: usize,
    pub bytes: u64,
    pub low: Option<u64>,
}

// ---- one of the swept

// `full`
fn is_full(count: usize, batch: usize, bytes: u64, mean: u64) -> bool
    ensures { result ≡ full (batch - count) bytes mean }
{
    if batch <= count {
        return true;
    }
    bytes < mean
}

// `passed_by`
fn is_passed_by(words: &Words, staged: Listed, floor: u64, h: Hash, height: u64) -> bool
    requires { Whole words.now × (rising (window_of words.now).queue.pending ≡ true) }
    ensures { result ≡ passed_by staged.entry.hashes.now floor (window_of words.now) (ask h height) }
{
    if height < floor {
        return true;
    }
    if staged.names(h) {
        return true;
    }
    queries::contains_pending(words, h)
}

// `lower_of`
fn lower_of(low: Option<u64>, height: u64) -> Option<u64>
    ensures { result ≡ lower_of low height }
{
    match low {
        None => Some(height),
        Some(n) => Some(numbers::lesser(n, height)),
    }
}

// The hash of the release that the key at i is of.
fn hash_at(keys: &[u64], gone: &Gone, i: usize) -> Hash
    requires { i < length keys.now }
    ensures { result ≡ (entry_from gone.now (get_or keys.now i 0 % 256)).hash }
{
    let p = swept_order::place_of(keys[i]);
    requests::hash_in(gone, sizes::RELEASE_WORDS * p)
}

// Its height.
fn height_at(keys: &[u64], gone: &Gone, i: usize) -> u64
    requires { i < length keys.now }
    ensures { result ≡ (entry_from gone.now (get_or keys.now i 0 % 256)).height }
{
    let p = swept_order::place_of(keys[i]);
    let a = sizes::RELEASE_WORDS * p;
    gone[a + of_release::HEIGHT]
}

// ---- all of them

// `retries`, of the swept in the order of their keys.
fn retry(
    keys: &PerPlace,
    words: &Words,
    gone: &Gone,
    n: usize,
    hashes: &mut [u64],
    heights: &mut [u32],
    index: &mut [u32],
    staged: Listed,
    refused: Listed,
    floor: u64,
    batch: usize,
    bytes: u64,
    mean: u64,
) -> Draft
    requires { Lends words.now gone.now hashes.old heights.old index.old n batch × (swept_asks (releases_of n gone.now) ≡ asks_by gone.now (take n keys.now)) × (mean ≡ (window_of words.now).mean) }
    ensures { Drafted (retries staged.entry.hashes.now refused.entry.hashes.now floor words.now n gone.now batch bytes) batch hashes.old heights.old hashes.new heights.new index.new result.count result.bytes result.low }
{
    let mut count: usize = 0;
    let mut left = bytes;
    let mut low = None;
    for i in 0..n {
        if is_full(count, batch, left, mean) {
            return Draft {
                count,
                bytes: left,
                low,
            };
        }
        let h = hash_at(keys, gone, i);
        let height = height_at(keys, gone, i);
        if refused.names(h) {
            low = lower_of(low, height);
            continue;
        }
        if is_passed_by(words, staged, floor, h, height) {
            continue;
        }
        plan_lists::put_ask(hashes, heights, index, count, h, height);
        left -= mean;
        count += 1;
    }
    Draft {
        count,
        bytes: left,
        low,
    }
}

// `retries`: what was swept, in the first n releases of `gone`, and is asked for again by the words after the sweep. The lent lists get its entries, the
// index their hashes.
pub fn expired_request_entries(
    words: &Words,
    gone: &Gone,
    n: usize,
    hashes: &mut [u64],
    heights: &mut [u32],
    index: &mut [u32],
    staged: Listed,
    refused: Listed,
    floor: u64,
    batch: usize,
    bytes: u64,
) -> Draft
    requires { Lends words.now gone.now hashes.old heights.old index.old n batch }
    ensures { Drafted (retries staged.entry.hashes.now refused.entry.hashes.now floor words.now n gone.now batch bytes) batch hashes.old heights.old hashes.new heights.new index.new result.count result.bytes result.low }
{
    if n == 0 {
        return Draft {
            count: 0,
            bytes,
            low: None,
        };
    }
    let mean = state::get_mean(words);
    let mut keys: [u64; sizes::PLACES] = [0; sizes::PLACES];
    swept_order::sort_swept(&mut keys, gone, n);
    retry(
        &keys, words, gone, n, hashes, heights, index, staged, refused, floor, batch, bytes, mean,
    )
}

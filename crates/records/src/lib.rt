// The records in the 4,096 lent words: eight columns of 256 places. A contract speaks of `decode`, which every list of words has: nothing is
// asked but lengths and indices, and of one in or out that no record stands after the live ones. `count` is how many places are live.
#![tactic(auto)]

ghost use Rattle.std.specs.Prelude.{◌≡◌, true, cond, [], ◌∷◌, ◌++◌, ◌-◌, ◌<◌, ◌≤◌, suc, length, take, drop, get_or, replicate, eqb};
ghost use Rattle.model.specs.Hash.{hash, less};
ghost use Rattle.column.specs.Edits.{remove_at, inserted};
ghost use Rattle.model.specs.Records.{lowest, at_height, pending_count_for};
ghost use Rattle.model.specs.Numbers.{lesser};
ghost use Rattle.model.specs.Seats.{oldest};
ghost use Rattle.model.specs.Pace.{was_front};
ghost use Rattle.model.specs.Layout.{decode, entry_at, field, blank};
ghost use Rattle.laws.specs.Tables.{removed, put_in, kept_rows};
ghost use Rattle.records.specs.Places.{Parts, Finds, front_at, stored, floored};
ghost use Rattle.records.specs.Cleared.{all_marked};

use model::sizes::COLUMNS;
use model::{Entry, Hash, PerPlace, Words, at, sizes};

// ---- one record

fn hash_of(words: &Words, i: usize) -> Hash
    requires { i < 256 }
    ensures { result ≡ (entry_at (drop i words.now)).hash }
{
    Hash {
        a: words[i],
        b: words[i + at::HASH_B],
        c: words[i + at::HASH_C],
        d: words[i + at::HASH_D],
    }
}

// The record at a place.
pub fn entry_of(words: &Words, i: usize) -> Entry
    requires { i < 256 }
    ensures { result ≡ get_or (decode words.now).entries i blank }
{
    let hash = hash_of(words, i);
    Entry {
        hash,
        owner: words[i + at::OWNERS],
        time: words[i + at::TIMES],
        height: words[i + at::HEIGHTS],
        estimate: words[i + at::ESTIMATES],
    }
}

// ---- changes, column by column. One in or out moves no word from `live` on, which is how many records there are: those places hold 0.

fn remove_live(col: &mut [u64], live: usize, at: usize)
    requires { (length col.old ≡ 256) × (live ≤ 256) × (at < live) × (drop live col.old ≡ replicate (256 - live) 0) }
    ensures { col.new ≡ remove_at at col.old ++ (0 ∷ []) }
{
    column::remove_at(&mut col[0..live], at);
}

// `removed`: the record at `at` taken out.
pub fn remove(words: &mut Words, live: usize, at: usize)
    requires { (live ≤ 256) × (at < live) × (drop live (decode words.old).entries ≡ replicate (256 - live) blank) }
    ensures { decode words.new ≡ removed at (decode words.old) }
{
    for k in 0..COLUMNS {
        let a = sizes::PLACES * k;
        let e = a + sizes::PLACES;
        remove_live(&mut words[a..e], live, at);
    }
}

// The word of an entry that is in the column k.
pub fn field_of(e: Entry, k: usize) -> u64
    requires { k < 8 }
    ensures { result ≡ field k e }
{
    let h = e.hash;
    let l = [h.a, h.b, h.c, h.d, e.owner, e.time, e.height, e.estimate];
    l[k]
}

fn insert_live(col: &mut [u64], live: usize, at: usize, value: u64)
    requires { (length col.old ≡ 256) × (live < 256) × (at ≤ live) × (drop live col.old ≡ replicate (256 - live) 0) }
    ensures { col.new ≡ inserted at value col.old }
{
    let e = live + 1;
    column::insert_at(&mut col[0..e], at, value);
}

// `put_in`: an entry put in at `at`.
pub fn insert(words: &mut Words, live: usize, at: usize, e: Entry)
    requires { (live < 256) × (at ≤ live) × (drop live (decode words.old).entries ≡ replicate (256 - live) blank) }
    ensures { decode words.new ≡ put_in at e (decode words.old) }
{
    for k in 0..COLUMNS {
        let a = sizes::PLACES * k;
        let z = a + sizes::PLACES;
        let v = field_of(e, k);
        insert_live(&mut words[a..z], live, at, v);
    }
}

// `kept_rows`: the records whose mark is 0.
pub fn keep(words: &mut Words, marks: &PerPlace)
    ensures { decode words.new ≡ kept_rows marks.now (decode words.old) }
{
    for k in 0..COLUMNS {
        let a = sizes::PLACES * k;
        let e = a + sizes::PLACES;
        column::keep_unmarked(&mut words[a..e], marks);
    }
}

// `kept_rows` where every mark is set: no record stays.
pub fn clear(words: &mut Words)
    ensures { decode words.new ≡ kept_rows all_marked (decode words.old) }
{
    for k in 0..COLUMNS {
        let a = sizes::PLACES * k;
        let e = a + sizes::PLACES;
        column::clear_from(&mut words[a..e], 0);
    }
}

// ---- the place of a hash

// Whether the record at i comes before a hash.
fn comes_before(words: &Words, i: usize, h: Hash) -> bool
    requires { i < 256 }
    ensures { result ≡ less (entry_at (drop i words.now)).hash h }
{
    let g = hash_of(words, i);
    hash::less(g, h)
}

// By halving: at most nine looks where a scan would take 128 on the mean; and what it promises, `Parts`, needs no order among the records.
// By hand: the library's searches go over one slice, where a hash is in four, and promise `Parts` only of one in order.
fn parting(words: &Words, count: usize, h: Hash) -> usize
    requires { count ≤ 256 }
    ensures { Parts h (take count (decode words.now).entries) result }
{
    let mut lo = 0;
    let mut hi = count;
    while lo < hi {
        let mid = (lo + hi) / 2;
        if comes_before(words, mid, h) {
            lo = mid + 1;
        } else {
            hi = mid;
        }
    }
    lo
}

// `Finds`: the place of a hash, or else the one where it would go, as the library's searches answer. On rising records `Ok` is `found` and `remove`,
// `Err` is `insert`.
pub fn find(words: &Words, count: usize, h: Hash) -> Result<usize, usize>
    requires { count ≤ 256 }
    ensures { Finds h (take count (decode words.now).entries) result }
{
    let at = parting(words, count, h);
    if at < count {
        let g = hash_of(words, at);
        if hash::equal(g, h) {
            return Ok(at);
        }
    }
    Err(at)
}

// ---- scans

// `pending_count_for`
pub fn pending_count_for(words: &Words, count: usize, owner: u64) -> u64
    requires { count ≤ 256 }
    ensures { result ≡ pending_count_for owner (take count (decode words.now).entries) }
{
    let mut n = 0;
    for seat in &words[at::OWNERS..at::OWNERS + count] {
        if *seat == owner {
            n += 1;
        }
    }
    n
}

// The least time of the owner so far, after a record of the seat o and the time t. By choices and no branch, since owners come in any order.
#[tactic(auto, using(laws::specs::Numbers::min_is))]
fn low_after(o: u64, owner: u64, t: u64, low: u64) -> u64
    ensures { result ≡ cond (eqb o owner) (lesser t low) low }
{
    let m = t.min(low);
    if o == owner { m } else { low }
}

fn any_after(o: u64, owner: u64, any: bool) -> bool
    ensures { result ≡ cond (eqb o owner) true any }
{
    any | (o == owner)
}

fn oldest_by(any: bool, low: u64) -> Option<u64>
    ensures { stored result ≡ cond any (suc low) 0 }
{
    any.then_some(low)
}

// `oldest`, no lower than a floor that is as it is stored: below it the scan ends, since how much older a record is does not matter. The loop holds
// plain numbers, and the answer is made after it: an enum in the loop would go through memory at every turn. A time may be any number, so whether
// there is one is a flag of its own. From the last record to the first, as `oldest` goes.
pub fn oldest_from(words: &Words, count: usize, owner: u64, floor: u64) -> Option<u64>
    requires { count ≤ 256 }
    ensures { stored result ≡ floored floor (oldest owner (take count (decode words.now).entries)) }
{
    let mut any = false;
    let mut low = u64::MAX;
    for i in (0..count).rev() {
        let o = words[i + at::OWNERS];
        let t = words[i + at::TIMES];
        low = low_after(o, owner, t, low);
        any = any_after(o, owner, any);
        if low < floor {
            let least = floor - 1;
            return Some(least);
        }
    }
    oldest_by(any, low)
}

// The place of the lowest record, the first among equals; `count` where there is none. From the last record to the first, as `lowest` goes.
fn lowest_place(words: &Words, count: usize) -> usize
    requires { count ≤ 256 }
    ensures { lowest (take count (decode words.now).entries) ≡ front_at count result (decode words.now).entries }
{
    let mut best = count;
    let mut low = u64::MAX;
    for i in (0..count).rev() {
        let g = words[i + at::HEIGHTS];
        if g <= low {
            best = i;
            low = g;
        }
    }
    best
}

// `lowest`
#[tactic(auto, unfolding(crate::specs::Places::front_at))]
pub fn lowest(words: &Words, count: usize) -> Option<Entry>
    requires { count ≤ 256 }
    ensures { result ≡ lowest (take count (decode words.now).entries) }
{
    let at = lowest_place(words, count);
    (at < count).then(|| entry_of(words, at))
}

// `at_height`
pub fn at_height(words: &Words, count: usize, height: u64) -> Option<Entry>
    requires { count ≤ 256 }
    ensures { result ≡ at_height height (take count (decode words.now).entries) }
{
    let heights = &words[at::HEIGHTS..at::HEIGHTS + count];
    match heights.iter().position(|h| *h == height) {
        Some(i) => Some(entry_of(words, i)),
        None => None,
    }
}

// `was_front`
pub fn was_front(words: &Words, count: usize, height: u64) -> bool
    requires { count ≤ 256 }
    ensures { result ≡ was_front height (take count (decode words.now).entries) }
{
    words[at::HEIGHTS..at::HEIGHTS + count]
        .iter()
        .all(|h| height < *h)
}

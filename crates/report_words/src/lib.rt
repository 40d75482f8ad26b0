// What went, as a flat list of words: nine for a release, room for 256. The core of a lent report.
#![tactic(auto)]

ghost use Rattle.std.specs.Prelude.{◌≡◌, ◌++◌, ◌∷◌, [], ◌+◌, ◌-◌, ◌*◌, ◌<◌, ◌≤◌, suc, length, take};
ghost use Rattle.model.specs.Lists.{any};
ghost use Rattle.model.specs.Reasons.{lowered, release};
ghost use Rattle.model.specs.LettingGo.{total_after, frontier_after, is_entry};
ghost use Rattle.model.specs.Layout.{decode};
ghost use Rattle.laws.specs.Marks.{gone_by};
ghost use Rattle.report_words.specs.Report.{nine, release_at, releases_of};

use model::{Entry, Gone, Hash, PerPlace, Words, of_release, sizes};

// A window's total and frontier.
#[derive(Clone, Copy)]
pub struct Totals {
    pub total: u64,
    pub frontier: u64,
}

// A release's nine words.
pub fn nine(e: Entry, reason: u64) -> [u64; sizes::RELEASE_WORDS]
    ensures { result ≡ nine e reason }
{
    let h = e.hash;
    [
        h.a, h.b, h.c, h.d, e.owner, e.time, e.height, e.estimate, reason,
    ]
}

// Writes a release after the first `n`, where there is room for its nine words.
pub fn put_release(gone: &mut [u64], n: usize, e: Entry, reason: u64)
    requires { 9 * n + 9 ≤ length gone.old }
    ensures { releases_of (suc n) gone.new ≡ releases_of n gone.old ++ (release e reason ∷ []) }
{
    let l = nine(e, reason);
    let a = sizes::RELEASE_WORDS * n;
    let z = a + sizes::RELEASE_WORDS;
    column::copy_over(&mut gone[a..z], &l);
}

// `gone_by`: the records whose mark is not 0, in order. Answers how many.
pub fn gather(words: &Words, count: usize, marks: &PerPlace, gone: &mut Gone) -> usize
    requires { count ≤ 256 }
    ensures { (result ≤ count) × (releases_of result gone.new ≡ gone_by marks.now (take count (decode words.now).entries)) }
{
    let mut n = 0;
    for i in 0..count {
        let m = marks[i];
        if m != 0 {
            let e = records::entry_of(words, i);
            put_release(gone, n, e, m);
            n += 1;
        }
    }
    n
}

// Total and frontier after one release, by the table of reasons.
fn less_one(t: Totals, estimate: u64, height: u64, reason: u64) -> Totals
    ensures { (result.total ≡ t.total - estimate) × (result.frontier ≡ lowered reason height t.frontier) }
{
    let total = t.total.saturating_sub(estimate);
    let frontier = reasons::lowered(reason, height, t.frontier);
    Totals { total, frontier }
}

// `total_after` and `frontier_after` the first `n` releases.
pub fn totals_after(gone: &Gone, n: usize, total: u64, frontier: u64) -> Totals
    requires { n ≤ 256 }
    ensures { (result.total ≡ total_after (releases_of n gone.now) total) × (result.frontier ≡ frontier_after (releases_of n gone.now) frontier) }
{
    let mut t = Totals { total, frontier };
    for i in 0..n {
        let a = sizes::RELEASE_WORDS * i;
        t = less_one(
            t,
            gone[a + of_release::ESTIMATE],
            gone[a + of_release::HEIGHT],
            gone[a + of_release::REASON],
        );
    }
    t
}

// `is_entry`, of release i.
fn is_entry(gone: &Gone, i: usize, owner: u64, h: Hash) -> bool
    requires { i < 256 }
    ensures { result ≡ is_entry owner h (release_at gone.now i) }
{
    let a = sizes::RELEASE_WORDS * i;
    let g = Hash {
        a: gone[a],
        b: gone[a + 1],
        c: gone[a + 2],
        d: gone[a + 3],
    };
    let same = hash::equal(g, h);
    same & (gone[a + of_release::OWNER] == owner)
}

// Whether an owner's entry of a hash is among the first `n` releases.
pub fn is_among(gone: &Gone, n: usize, owner: u64, h: Hash) -> bool
    requires { n ≤ 256 }
    ensures { result ≡ any (is_entry owner h) (releases_of n gone.now) }
{
    (0..n).any(|i| is_entry(gone, i, owner, h))
}

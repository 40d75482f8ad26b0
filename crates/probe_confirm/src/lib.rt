// SPECIFICATION 7.14: the confirmation of a prefix probe, in words that hold a window. The last clock is not set here.
#![tactic(auto)]

ghost use Rattle.std.specs.Prelude.{◌≡◌, true, ◌&&◌, ◌+◌, ◌*◌, ◌≤◌, length, eqb};
ghost use Rattle.model.specs.Numbers.{max_clock, max_seat};
ghost use Rattle.model.specs.Lists.{all};
ghost use Rattle.model.specs.Hash.{same_hashes, hashes_in};
ghost use Rattle.model.specs.Layout.{window_of, planned_words};
ghost use Rattle.model.specs.Races.{entered, probe_started, confirm_prefix_probe};
ghost use Rattle.model.specs.Refusals.{seat_ok};
ghost use Rattle.model.specs.Window.{with_probe};
ghost use Rattle.laws.specs.Sound.{Sound};
ghost use Rattle.laws.specs.Whole.{Whole, Holds};
ghost use Rattle.states.specs.Fits.{probe_fits};
ghost use Rattle.plans.specs.Rows.{row_hash, rows_words, rows_hashes};
ghost use Rattle.probe_hashes.specs.Rows.{Rows};
ghost use Rattle.probe_confirm.specs.Confirms.{words_in};

use model::{Hash, PrefixProbe, Words};

// ---- the given hashes

// Four words from k on.
fn row_in(given: &[u64], k: usize) -> [u64; 4]
    requires { k + 4 ≤ length given.now }
    ensures { result ≡ words_in given.now k }
{
    [given[k], given[k + 1], given[k + 2], given[k + 3]]
}

// The n given hashes, and 0 after them.
fn given_hashes(given: &[u64], n: usize) -> [[u64; 4]; 8]
    requires { (length given.now ≡ 4 * n) × (n ≤ 8) }
    ensures { rows_words 8 result ≡ planned_words (hashes_in given.now) }
{
    let mut rows: [[u64; 4]; 8] = [[0; 4]; 8];
    for i in 0..n {
        let row = row_in(given, 4 * i);
        rows[i] = row;
    }
    rows
}

// The hash of a row.
fn hash_of(row: [u64; 4]) -> Hash
    ensures { result ≡ row_hash row }
{
    Hash {
        a: row[0],
        b: row[1],
        c: row[2],
        d: row[3],
    }
}

// `same_hashes` of all eight rows, hash by hash: `==` of the arrays compares words, the model's `same` numbers.
fn same_rows(a: [[u64; 4]; 8], b: [[u64; 4]; 8]) -> bool
    ensures { result ≡ same_hashes (rows_hashes 8 a) (rows_hashes 8 b) }
{
    for i in 0..8 {
        let x = a[i];
        let y = b[i];
        if !hash::equal(hash_of(x), hash_of(y)) {
            return false;
        }
    }
    true
}

// The given hashes are the n planned: a ragged list is not, nor one of more than eight.
fn is_plan(rows: [[u64; 4]; 8], n: usize, given: &[u64]) -> bool
    requires { Rows n rows }
    ensures { result ≡ eqb (length given.now) (4 * n) && same_hashes (rows_hashes n rows) (hashes_in given.now) }
{
    if given.len() != 4 * n {
        return false;
    }
    let named = given_hashes(given, n);
    same_rows(rows, named)
}

// ---- the race begins

// The probe with the hashes of n rows; its racers as they were.
fn set_rows(words: &mut Words, x: Option<PrefixProbe>, n: u64, rows: [[u64; 4]; 8])
    requires { Whole words.old × (probe_fits x × Rows n rows) }
    ensures { Holds (with_probe x (rows_hashes n rows) (window_of words.old).races.racers (window_of words.old)) words.new }
{
    states::store_probe(words, x, n);
    plans::store_planned(words, rows);
}

// `entered`
fn enter_all(words: &mut Words, alternates: &[u64])
    requires { Whole words.old × (all seat_ok alternates.now ≡ true) }
    ensures { Holds (with_probe (window_of words.old).races.probe (window_of words.old).races.planned (entered alternates.now (window_of words.old).races.racers) (window_of words.old)) words.new }
{
    for alternate in alternates {
        let seat = *alternate as usize;
        state_races::set_racer(words, seat, 1);
    }
}

// `probe_started`
fn start_probe(
    words: &mut Words,
    owner: u64,
    n: u64,
    rows: [[u64; 4]; 8],
    alternates: &[u64],
    clock: u64,
)
    requires { Whole words.old × (Rows n rows × ((owner ≤ max_seat) × ((clock ≤ max_clock) × (all seat_ok alternates.now ≡ true)))) }
    ensures { Holds (probe_started owner (rows_hashes n rows) alternates.now clock (window_of words.old)) words.new }
{
    let who = Some(owner);
    state::set_attempted(words, who);
    let x = Some(PrefixProbe {
        owner,
        accepted: 0,
        started: clock,
    });
    set_rows(words, x, n, rows);
    state_races::clear_racers(words);
    state_races::set_racer(words, owner as usize, 1);
    enter_all(words, alternates);
}

// `confirm_prefix_probe`
pub fn confirm_prefix_probe(
    words: &mut Words,
    owner: u64,
    given: &[u64],
    alternates: &[u64],
    clock: u64,
)
    requires { Whole words.old × (Sound clock (window_of words.old) × ((owner ≤ max_seat) × (all seat_ok alternates.now ≡ true))) }
    ensures { Holds (confirm_prefix_probe owner given.now alternates.now clock (window_of words.old)) words.new }
{
    if alternates.len() == 0 {
        return;
    }
    let p = probe_plan::make_plan(words);
    let n = p.n;
    let planned = p.owner;
    if n < 4 {
        return;
    }
    if planned != owner {
        return;
    }
    let rows = probe_hashes::plan_hashes(words, p);
    if !is_plan(rows, n, given) {
        return;
    }
    start_probe(words, owner, n as u64, rows, alternates, clock);
}

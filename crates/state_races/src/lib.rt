// Hedged fronts, and the probe with its hashes and racers, in words that hold a window and nothing else. Contracts as in `state`.
#![tactic(auto)]

ghost use Rattle.std.specs.Prelude.{◌≡◌, List, ◌++◌, ◌∷◌, [], ◌+◌, ◌*◌, ◌≤◌, ◌<◌, length, get_or, set, take};
ghost use Rattle.model.specs.Numbers.{present};
ghost use Rattle.model.specs.Lists.{any, count};
ghost use Rattle.model.specs.Hash.{hash, same, hashes_in};
ghost use Rattle.model.specs.Layout.{decode, window_of, hedged_words};
ghost use Rattle.model.specs.Seats.{keep_seats};
ghost use Rattle.model.specs.LettingGo.{flagged};
ghost use Rattle.model.specs.Window.{with_hedged, with_probe, without_probe, no_seats};
ghost use Rattle.laws.specs.Whole.{Whole, Holds};
ghost use Rattle.states.specs.Fits.{probe_fits};
ghost use Rattle.model.specs.declared.Hash.{Hash};
ghost use Rattle.state_races.specs.Hedges.{pushed, Plan, Lists};

use model::{Hash, PerSeat, PrefixProbe, Words, head, sizes};

// ---- hedged fronts

pub fn hedged_count(words: &Words) -> u64
    requires { Whole words.now }
    ensures { result ≡ length (window_of words.now).races.hedged }
{
    layout::word_of(words, head::HEDGED)
}

// Whether a hash is among the n that the head has from word k on.
fn is_listed(words: &Words, k: usize, n: usize, h: Hash) -> bool
    requires { k + 4 * n ≤ 512 }
    ensures { (hs : List Hash) → Lists k n hs (decode words.now) → result ≡ any (λ x. same x h) hs }
{
    (0..n).any(|i| {
        let x = layout::hash_of(words, k + sizes::HASH_WORDS * i);
        hash::equal(x, h)
    })
}

pub fn is_hedged(words: &Words, h: Hash) -> bool
    requires { Whole words.now }
    ensures { result ≡ any (λ x. same x h) (window_of words.now).races.hedged }
{
    let n = hedged_count(words) as usize;
    is_listed(words, head::HEDGED_HASHES, n, h)
}

// The words of the hedged fronts with one more.
fn pushed_list(n: u64, g: Hash, h: Hash) -> [u64; 9]
    ensures { result ≡ hedged_words (pushed n g h) }
{
    if n == 0 {
        return [1, h.a, h.b, h.c, h.d, 0, 0, 0, 0];
    }
    [2, g.a, g.b, g.c, g.d, h.a, h.b, h.c, h.d]
}

// One more hedged front.
pub fn push_hedged(words: &mut Words, h: Hash)
    requires { Whole words.old × (length (window_of words.old).races.hedged < 2) }
    ensures { Holds (with_hedged ((window_of words.old).races.hedged ++ (h ∷ [])) (window_of words.old)) words.new }
{
    let n = layout::word_of(words, head::HEDGED);
    let g = layout::hash_of(words, head::HEDGED_HASHES);
    let l = pushed_list(n, g, h);
    layout::store_at(words, head::HEDGED, &l);
}

// ---- the probe

pub fn get_probe(words: &Words) -> Option<PrefixProbe>
    ensures { result ≡ (window_of words.now).races.probe }
{
    states::load_probe(words)
}

pub fn planned_count(words: &Words) -> u64
    requires { Whole words.now }
    ensures { result ≡ length (window_of words.now).races.planned }
{
    layout::word_of(words, head::PROBE_COUNT)
}

pub fn planned_hash(words: &Words, i: usize) -> Hash
    requires { i < length (window_of words.now).races.planned }
    ensures { result ≡ get_or (window_of words.now).races.planned i (hash 0 0 0 0) }
{
    let k = head::PROBE_HASHES + sizes::HASH_WORDS * i;
    layout::hash_of(words, k)
}

pub fn is_planned(words: &Words, h: Hash) -> bool
    requires { Whole words.now }
    ensures { result ≡ any (λ x. same x h) (window_of words.now).races.planned }
{
    let n = planned_count(words) as usize;
    is_listed(words, head::PROBE_HASHES, n, h)
}

// The probe's own words, its hashes and racers as they were.
pub fn set_probe(words: &mut Words, x: Option<PrefixProbe>)
    requires { Whole words.old × probe_fits x }
    ensures { Holds (with_probe x (window_of words.old).races.planned (window_of words.old).races.racers (window_of words.old)) words.new }
{
    let n = layout::word_of(words, head::PROBE_COUNT);
    states::store_probe(words, x, n);
}

// The probe with n hashes, four words each and 0 after them; its racers as they were.
pub fn set_plan(words: &mut Words, x: Option<PrefixProbe>, n: u64, list: &[u64])
    requires { Whole words.old × (probe_fits x × Plan n list.now) }
    ensures { Holds (with_probe x (take n (hashes_in list.now)) (window_of words.old).races.racers (window_of words.old)) words.new }
{
    states::store_probe(words, x, n);
    layout::store_at(words, head::PROBE_HASHES, list);
}

// ---- racers

pub fn racers_left(words: &Words) -> u64
    ensures { result ≡ count present (window_of words.now).races.racers }
{
    seats::racers_left(words)
}

pub fn set_racer(words: &mut Words, seat: usize, racer: u64)
    requires { Whole words.old × (seat < 256) }
    ensures { Holds (with_probe (window_of words.old).races.probe (window_of words.old).races.planned (set (window_of words.old).races.racers seat racer) (window_of words.old)) words.new }
{
    seats::set_racer(words, seat, racer);
}

pub fn clear_racers(words: &mut Words)
    requires { Whole words.old }
    ensures { Holds (with_probe (window_of words.old).races.probe (window_of words.old).races.planned no_seats (window_of words.old)) words.new }
{
    seats::clear_racers(words);
}

// The racers whose seats have a flag.
pub fn keep_racers(words: &mut Words, flags: &PerSeat)
    requires { Whole words.old }
    ensures { Holds (with_probe (window_of words.old).races.probe (window_of words.old).races.planned (keep_seats (flagged flags.now) 0 (window_of words.old).races.racers) (window_of words.old)) words.new }
{
    seats::keep_racers(words, flags);
}

// `without_probe`
pub fn clear_probe(words: &mut Words)
    requires { Whole words.old }
    ensures { Holds (without_probe (window_of words.old)) words.new }
{
    let none = [0; sizes::PLANNED_WORDS];
    let p = None;
    set_plan(words, p, 0, &none);
    clear_racers(words);
}

// What a call said and left beside what was recorded, part by part.
ghost use Rattle.std.specs.Prelude.{◌≡◌, ◌<◌, ◌&&◌, length, ◌==◌};
ghost use Rattle.recorded.specs.Same.{skips, same_part, same_rows};

use crate::stream::Place;
use crate::{Part, Record, Said, Same};
use model::{of_release, sizes};

// Words in groups of `every`, beside the recorded numbers of a part.
#[derive(Clone, Copy)]
struct Beside<'a> {
    words: &'a [u64],
    numbers: &'a [u64],
    part: Part,
    every: usize,
}

// Whether a word is none of those that are compared: of each `every` words those from the first to before the last.
fn skips(i: usize, every: usize, first: usize, last: usize) -> bool
    requires { 0 < every }
    ensures { result ≡ skips every first last i }
{
    let m = i % every;
    (m < first) | (m >= last)
}

impl Beside<'_> {
    // Whether the words of a group from the first to before the last are the part's, as far as both go.
    fn is_same(self, first: usize, last: usize) -> bool
        requires { 0 < self.every }
        ensures { result ≡ same_part self.entry.every first last self.entry.words.now self.entry.numbers.now self.entry.part.at self.entry.part.n (length self.entry.words.now) }
    {
        let p = Place {
            numbers: self.numbers,
            at: self.part.at,
        };
        self.words.iter().enumerate().all(|(i, word)| {
            i as u64 >= self.part.n || skips(i, self.every, first, last) || *word == p.nth(i as u64)
        })
    }
}

// The report: the first four of a place's nine words are its hash, the ninth is its reason.
#[tactic(auto, using(crate::proofs::Rows::rows_same))]
pub fn compared(s: Said, words: &[u64], expected: &[u64], numbers: &[u64], r: Record) -> Same
    ensures { (result.refusal ≡ same_part 32 0 1 s.fields numbers.now r.answer.at r.answer.n (length s.fields))
        × (result.answer ≡ same_part 32 1 32 s.fields numbers.now r.answer.at r.answer.n (length s.fields))
        × (result.count ≡ (s.places == r.places))
        × (result.order ≡ same_part 9 0 4 s.gone numbers.now r.gone.at r.gone.n (length s.gone))
        × (result.values ≡ same_part 9 4 8 s.gone numbers.now r.gone.at r.gone.n (length s.gone))
        × (result.reasons ≡ same_part 9 8 9 s.gone numbers.now r.gone.at r.gone.n (length s.gone))
        × (result.words ≡ same_rows words.now expected.now) }
{
    let fields = Beside {
        words: &s.fields,
        numbers,
        part: r.answer,
        every: 32,
    };
    let gone = Beside {
        words: &s.gone,
        numbers,
        part: r.gone,
        every: sizes::RELEASE_WORDS,
    };
    Same {
        refusal: fields.is_same(0, 1),
        answer: fields.is_same(1, 32),
        count: s.places as u64 == r.places,
        order: gone.is_same(0, sizes::HASH_WORDS),
        values: gone.is_same(of_release::OWNER, of_release::REASON),
        reasons: gone.is_same(of_release::REASON, sizes::RELEASE_WORDS),
        words: words == expected,
    }
}

impl Same {
    // Whether all is as recorded.
    pub fn is_all(self) -> bool
        ensures { result ≡ (self.refusal && self.answer && self.count && self.order && self.values && self.reasons && self.words) }
    {
        self.refusal
            & self.answer
            & self.count
            & self.order
            & self.values
            & self.reasons
            & self.words
    }
}

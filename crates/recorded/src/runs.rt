// A record, and the words that its call changed: runs, each its place, its length and its words.
ghost use Rattle.std.specs.Prelude.{◌≡◌};
ghost use Rattle.recorded.specs.Records.{nine_times, parts_at, record_at, word_after, run_put, next_run, runs_put};

use crate::stream::Place;
use crate::{Part, Record};

// A release has nine words.
fn nine_times(n: u64) -> u64
    ensures { result ≡ nine_times n }
{
    n.wrapping_mul(9)
}

// Its call, then how many arguments, fields, releases and numbers of runs there are, then these.
pub fn parts_at(p: Place) -> Record
    ensures { result ≡ parts_at p.entry.numbers.now p.entry.at }
{
    let args = p.on(5);
    let answer = args.on(p.nth(1));
    let fields = p.nth(2);
    let places = p.nth(3);
    let gone = answer.on(fields);
    let words = nine_times(places);
    let runs = gone.on(words);
    let next = runs.on(p.nth(4));
    Record {
        number: p.get(),
        args: args.at,
        answer: Part {
            at: answer.at,
            n: fields,
        },
        places,
        gone: Part {
            at: gone.at,
            n: words,
        },
        runs: runs.at,
        next: next.at,
    }
}

// A record, none where its number is 0, which is no call.
#[tactic(auto, unfolding(crate::specs::Records::record_at))]
pub fn record_at(p: Place) -> Option<Record>
    ensures { result ≡ record_at p.entry.numbers.now p.entry.at }
{
    let r = parts_at(p);
    (r.number != 0).then_some(r)
}

// A word after a run of n words from the first on: the run's where it reaches, the old one elsewhere.
#[tactic(auto, using(std::proofs::lemmas::Bool::Decides::nat_tests))]
fn word_after(run: Place, first: u64, n: u64, i: u64, word: u64) -> u64
    ensures { result ≡ word_after run.entry.numbers.now run.entry.at first n i word }
{
    if i < first {
        return word;
    }
    if i - first >= n {
        return word;
    }
    run.on(2).nth(i - first)
}

fn put_run(words: &mut [u64], run: Place)
    ensures { words.new ≡ run_put run.entry.numbers.now run.entry.at words.old }
{
    let first = run.get();
    let n = run.nth(1);
    for (i, word) in words.iter_mut().enumerate() {
        *word = word_after(run, first, n, i as u64, *word);
    }
}

fn next_run(run: Place) -> u64
    ensures { result ≡ next_run run.entry.numbers.now run.entry.at }
{
    run.on(2).on(run.nth(1)).at
}

// The words of all runs up to the end. A call changes at most 4,096 words, so that it has no more runs.
pub fn put_runs(words: &mut [u64], numbers: &[u64], from: u64, end: u64)
    ensures { words.new ≡ runs_put 4096 numbers.now from end words.old }
{
    let mut at = from;
    for _ in 0..4096_u32 {
        if at >= end {
            return;
        }
        let run = Place { numbers, at };
        put_run(words, run);
        at = next_run(run);
    }
}

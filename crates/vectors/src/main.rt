// Replays the calls that the oracle recorded (stdin; VECTORS.md says how they were made): each answer, each report and all words after each call
// are compared with the recorded ones, part by part (crates/recorded), and what differs is named. Every call is a public one, made by crates/replayed.
#![tactic(auto)]

ghost use Rattle.std.specs.Prelude.{◌≤◌, length, IfOk};

use recorded::compare::compared;
use recorded::input::read_numbers;
use recorded::runs::{put_runs, record_at};
use recorded::stream::Place;
use recorded::{Record, Same};
use replayed::acts::perform;
use std::io;
use std::io::Read;

#[derive(Clone, Copy)]
struct Count {
    calls: u64,
    differing: u64,
}

// One call.
fn one(words: &mut [u64], expected: &mut [u64], numbers: &[u64], r: Record) -> Same {
    let a = Place {
        numbers,
        at: r.args,
    };
    let s = perform(words, r.number, a);
    put_runs(expected, numbers, r.runs, r.next);
    compared(s, words, expected, numbers, r)
}

fn unless(rt: &impl Print, same: bool, part: &str) -> io::Result<()> {
    if same {
        return Ok(());
    }
    print!(rt; "{part}")
}

fn name(rt: &impl Print, nth: u64, call: u64, q: Same) -> io::Result<()> {
    print!(rt; "record {nth}, call {call} differs in")?;
    unless(rt, q.refusal, " refusal")?;
    unless(rt, q.answer, " answer")?;
    unless(rt, q.count, " count")?;
    unless(rt, q.order, " order")?;
    unless(rt, q.values, " values")?;
    unless(rt, q.reasons, " reasons")?;
    unless(rt, q.words, " words")?;
    println!(rt; "")
}

// A call that differs is named, and counted.
fn told(rt: &impl Print, differing: u64, nth: u64, call: u64, q: Same) -> io::Result<u64> {
    if q.is_all() {
        return Ok(differing);
    }
    name(rt, nth, call, q)?;
    Ok(differing.wrapping_add(1))
}

// Calls at most.
const MOST: u64 = 100_000;

fn replay(
    rt: &impl Print,
    words: &mut [u64],
    expected: &mut [u64],
    numbers: &[u64],
) -> io::Result<Count> {
    let mut differing: u64 = 0;
    let mut at: u64 = 0;
    for calls in 0..MOST {
        let Some(r) = record_at(Place { numbers, at }) else {
            return Ok(Count { calls, differing });
        };
        let q = one(words, expected, numbers, r);
        differing = told(rt, differing, calls + 1, r.number, q)?;
        at = r.next;
    }
    Ok(Count {
        calls: MOST,
        differing,
    })
}

fn replayed(rt: &impl Print, numbers: &[u64]) -> io::Result<Count> {
    let mut words: [u64; 4096] = [0; 4096];
    let mut expected: [u64; 4096] = [0; 4096];
    replay(rt, &mut words, &mut expected, numbers)
}

fn report(rt: &impl Print, c: Count) -> io::Result<()> {
    let same = c.calls.wrapping_sub(c.differing);
    let differing = c.differing;
    println!(rt; "{same} calls as recorded, {differing} differ")
}

// Reads until the room is full or the input ends; how many bytes were read.
// A while, no method of std: `read_exact` refuses an input that ends sooner, and `read_to_end` grows a Vec, where this room is fixed.
fn read_full(input: &mut impl Read, bytes: &mut [u8]) -> io::Result<usize>
    ensures { IfOk result (λ n. n ≤ length bytes.new) }
{
    let mut done: usize = 0;
    while done < bytes.len() {
        let n = input.read(&mut bytes[done..])?;
        if n == 0 {
            break;
        }
        done += n;
    }
    Ok(done)
}

fn run(rt: &(impl Print + Input), bytes: &mut [u8], numbers: &mut [u64]) -> io::Result<()> {
    let mut input = rt.reader();
    let n = read_full(&mut input, bytes)?;
    read_numbers(&bytes[..n], numbers);
    let c = replayed(rt, numbers)?;
    report(rt, c)
}

// A room of its own function: where so long an array is written out in `main`, the check's stack is not enough.
fn room<T: Copy, const N: usize>(x: T) -> [T; N] {
    [x; N]
}

fn main(rt: HostRuntime) -> io::Result<()> {
    let mut bytes: [u8; 600_000] = room(0);
    let mut numbers: [u64; 200_000] = room(0);
    run(&rt, &mut bytes, &mut numbers)
}

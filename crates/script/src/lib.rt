// The script of the demo is a text: its lines are written as they stand, but those that begin with a colon, which are calls. Here are the lines of a text, a call's
// numbers in the columns of its line, what a call is given by them, and the line that is written of it.
#![tactic(auto)]

ghost use Rattle.std.specs.Prelude.{◌≡◌, ◌+◌, ◌*◌, ◌-◌, ◌/◌, ◌%◌, ◌≤◌, ◌<◌, eqb, length, ℕ, List, [], get_or, set, take, drop, replicate, MatchOption};
ghost use Rattle.std.specs.Iterator.{at_most};
ghost use Rattle.lines.specs.Rows.{row};
ghost use Rattle.script.specs.Text.{line_length, with_digit, number_in, hash_of, called, step_of};
ghost use Rattle.script.specs.Given.{settings, hashes, keys, height_after, height_of, words_to, span_of, names_plan, last_of, named, made, after_of};
ghost use Rattle.script.specs.Kept.{plan_of, planned, came, staged_after, staged_in, words_after};

use lines::{After, Call, Made, Said};
use model::{Hash, NextRequest, Refusal, Settings};
use std::marker::Model;

// A call of the script: tenths of a second and the clock in nanoseconds, the peer, the first block with its hash and how many blocks, and one number more. A number that its
// line leaves blank is 0.
#[derive(Clone, Copy)]
pub struct Step {
    pub call: Call,
    pub time: u64,
    pub clock: u64,
    pub peer: u64,
    pub first: u32,
    pub hash: Hash,
    pub count: u32,
    pub other: u64,
}

// A planned request: how many blocks, the first and the last of them, and the height after it.
#[derive(Clone, Copy)]
pub struct Plan {
    pub count: usize,
    pub first: u32,
    pub last: u32,
    pub next: u32,
}

// The blocks that a call names: the first, and the last of several.
#[derive(Clone, Copy)]
pub struct Span {
    pub first: Option<u64>,
    pub last: Option<u64>,
}

// ---- a text and its lines

// Where the line ends that begins at a place: after its line end, or at the end of the text.
pub fn line_end(text: &[u8], from: usize) -> usize
    requires { from < length text.now }
    ensures { (result ≡ from + line_length (drop from text.now)) × (from < result) × (result ≤ length text.now) }
{
    match text[from..].iter().position(|b| *b == b'\n') {
        Some(k) => from + k + 1,
        None => text.len(),
    }
}

// The lines of a text that are left, each with its line end.
#[derive(Drop)]
pub struct Lines<'a> {
    pub rest: &'a [u8],
}

pub fn lines_of(text: &[u8]) -> Lines<'_>
    ensures { result.rest.now ≡ text.now }
{
    Lines { rest: text }
}

impl<'a> Iterator for Lines<'a> {
    type Item = &'a [u8];

    ghost remaining = { λ s. at_most (length s.rest.now) };

    ghost next_gives = { λ s r t. MatchOption r (length s.rest.now ≡ 0) (λ line. (line.now ≡ take (line_length s.rest.now) s.rest.now) × (t.rest.now ≡ drop (line_length s.rest.now) s.rest.now)) };

    fn next(&mut self) -> Option<&'a [u8]> {
        if self.rest.is_empty() {
            return None;
        }
        let (line, rest) = self.rest.split_at(line_end(self.rest, 0));
        self.rest = rest;
        Some(line)
    }
}

// Past a line's end 0, which is no digit.
fn byte_at(line: &[u8], place: usize) -> u8
    ensures { result ≡ get_or line.now place 0 }
{
    line.get(place).copied().unwrap_or(0)
}

pub fn is_call(line: &[u8]) -> bool
    ensures { result ≡ eqb (get_or line.now 0 0) 58 }
{
    byte_at(line, 0) == b':'
}

// A digit is set behind a number, of which the last eight digits stay; what is no digit leaves it as it is.
fn with_digit(n: u32, byte: u8) -> u32
    ensures { result ≡ with_digit n byte }
{
    match byte {
        b'0'..=b'9' => (n % 100_000_000) * 10 + (byte - b'0') as u32,
        _ => n,
    }
}

// The number in the columns from a place on. A call's line has 26.
#[tactic(auto, unfolding(crate::specs::Text::number_in))]
fn number_in(line: &[u8], from: usize, width: usize) -> u32
    requires { from + width ≤ 26 }
    ensures { result ≡ number_in line.now from width }
{
    let mut n: u32 = 0;
    for i in 0..width {
        n = with_digit(n, byte_at(line, from + i));
    }
    n
}

// The block of a height: the script has one chain, and its hashes count up.
fn hash_of(height: u32) -> Hash
    ensures { result ≡ hash_of height }
{
    Hash {
        a: 0,
        b: 0,
        c: 0,
        d: height as u64,
    }
}

// Tenths of a second in nanoseconds.
fn clock_of(time: u32) -> u64
    ensures { result ≡ time * 100000000 }
{
    (time as u64) * 100_000_000
}

// A number that is no call's is kept as it is.
fn called(n: u32) -> Call
    ensures { result ≡ called n }
{
    Call::try_from(n).unwrap_or(Call::Other(n as usize))
}

// A call, from its line.
#[tactic(auto, unfolding(crate::specs::Text::step_of))]
pub fn step_of(line: &[u8]) -> Step
    ensures { result ≡ step_of line.now }
{
    let call = number_in(line, 1, 3);
    let time = number_in(line, 4, 6);
    let peer = number_in(line, 10, 4);
    let first = number_in(line, 14, 3);
    let count = number_in(line, 17, 2);
    let other = number_in(line, 19, 7);
    Step {
        call: called(call),
        time: time as u64,
        clock: clock_of(time),
        peer: peer as u64,
        first,
        hash: hash_of(first),
        count,
        other: other as u64,
    }
}

// ---- what a call is given

// The settings of the Rust's `default_sync_budget`, on a network with a block every ten minutes.
pub fn settings() -> Settings
    ensures { result ≡ settings }
{
    Settings {
        max_pending_blocks: 256,
        max_pending_bytes: 536_870_912,
        max_received_blocks: 256,
        max_peer_inflight: 256,
        fanout_peer_inflight: 16,
        min_peers_for_fanout: 8,
        getdata_batch_limit: 256,
        block_spacing: 600_000_000_000,
        received_timeout: 60_000_000_000,
        stall_timeout_initial: 2_000_000_000,
        stall_timeout_max: 64_000_000_000,
        staller_cooldown: 64_000_000_000,
    }
}

// Each seat has a key of its own.
#[tactic(auto, unfolding(crate::specs::Given::keys))]
pub fn keys() -> [u64; 256]
    ensures { result ≡ keys 256 }
{
    let mut l: [u64; 256] = [0; 256];
    for (i, key) in l.iter_mut().enumerate() {
        *key = i as u64;
    }
    l
}

const SEATS: u64 = 256;

// Every seat is kept but the peer's.
pub fn all_but(peer: u64) -> [u64; 256]
    ensures { result ≡ set (replicate 256 1) peer 0 }
{
    let mut l: [u64; 256] = [1; 256];
    if peer >= SEATS {
        return l;
    }
    l[peer as usize] = 0;
    l
}

// The hashes of blocks from a first one on, four words each.
#[tactic(auto, unfolding(crate::specs::Given::hashes))]
pub fn hashes_from<const WORDS: usize>(first: u32) -> [u64; WORDS]
    ensures { result ≡ hashes WORDS (WORDS / 4) first }
{
    let mut l: [u64; WORDS] = [0; WORDS];
    for i in 0..WORDS / 4 {
        l[4 * i + 3] = (first as u64) + (i as u64);
    }
    l
}

// Heights have 32 bits. The low ones are kept, where `u32::try_from` would refuse a number above.
pub fn height_of(n: u64) -> u32
    ensures { result ≡ height_of n }
{
    (n % 4_294_967_296) as u32
}

pub fn height_after(first: u32, n: u64) -> u32
    requires { n ≤ 8 }
    ensures { result ≡ height_after first n }
{
    height_of((first as u64) + n)
}

// The chain's hashes from block 0 on, of 64 blocks.
pub fn chain() -> [u64; 256]
    ensures { result ≡ hashes 256 64 0 }
{
    hashes_from(0)
}

// How many words of it are lent with a tip; it has no more than 64 blocks.
#[tactic(auto, unfolding(crate::specs::Given::words_to))]
pub fn words_to(tip: u32) -> usize
    ensures { (result ≡ words_to tip) × (result ≤ 256) }
{
    4 * (tip as usize + 1).min(64)
}

// ---- what is kept of a call

// Past a list's end 0.
fn height_at(heights: &[u32], place: usize) -> u32
    ensures { result ≡ get_or heights.now place 0 }
{
    heights.get(place).copied().unwrap_or(0)
}

// A plan of so many blocks, whose heights stand in the list.
#[tactic(auto, unfolding(crate::specs::Kept::plan_of))]
fn plan_of(count: u64, next: u64, heights: &[u32]) -> Plan
    ensures { result ≡ plan_of count next heights.now }
{
    let n = count as usize;
    let first = height_at(heights, 0);
    let last = height_at(heights, n.saturating_sub(1));
    let after = height_of(next);
    Plan {
        count: n,
        first,
        last,
        next: after,
    }
}

// What a call that plans came to. A refused one makes no plan.
#[tactic(auto, unfolding(crate::specs::Kept::plan_of))]
pub fn planned(a: Result<NextRequest, Refusal>, heights: &[u32]) -> Option<Plan>
    ensures { result ≡ planned a heights.now }
{
    let request = a.ok()?.request?;
    Some(plan_of(request.count, request.next_height, heights))
}

// Whether a block comes by the call, where it is accepted: its body, or by another way.
fn came(call: Call) -> bool
    ensures { result ≡ came call }
{
    matches!(call, Call::MarkReceivedFrom | Call::ReleasePending)
}

// A block that came by an accepted call is staged in a lent list, while there is room: its hash goes behind the first n words, which are blank from there on. It
// answers how many words there are then.
pub fn stage(staged: &mut [u64], n: usize, s: Step, said: Result<Said, Refusal>) -> usize
    ensures { (staged.new ≡ staged_in s said n staged.old) × (result ≡ words_after s said n staged.old) }
{
    if came(s.call) && said.is_ok() && n < staged.len() && staged.len() - n >= 4 {
        staged[n + 3] = s.first as u64;
        return n + 4;
    }
    n
}

// The hashes of the blocks that are staged, four words each, the first three 0. There is room for 64.
#[derive(Drop)]
pub struct Staged {
    list: [u64; 256],
    len: usize,
}

impl Model for Staged {
    ghost Value = { List ℕ };

    ghost view = { λ s. take s.len s.list };

    ghost invariant = { λ s. s.len ≤ 256 };
}

impl Staged {
    pub fn new() -> Self
        ensures { result ≡ [] }
    {
        Staged {
            list: [0; 256],
            len: 0,
        }
    }

    pub fn words(&self) -> &[u64]
        ensures { result.now ≡ self.now }
    {
        &self.list[..self.len]
    }

    // A block that came by an accepted call is staged, while there is room.
    pub fn stage(&mut self, s: Step, said: Result<Said, Refusal>)
        ensures { self.new ≡ staged_after s said self.old }
    {
        let n = self.len;
        if came(s.call) && said.is_ok() && n <= 252 {
            self.list[n..n + 4].copy_from_slice(&[0, 0, 0, s.first as u64]);
            self.len = n + 4;
        }
    }
}

// ---- the line that is written of a call

// Of more than eight only eight are named: a race is over eight.
fn last_of(first: u32, count: u32) -> u64
    ensures { result ≡ last_of first count }
{
    (first as u64) + (count.min(8) as u64).saturating_sub(1)
}

impl Span {
    // So many blocks.
    fn of(count: u64, first: u64, last: u64) -> Self
        ensures { result ≡ span_of count first last }
    {
        Span {
            first: (count > 0).then_some(first),
            last: (count > 1).then_some(last),
        }
    }
}

fn names_plan(call: Call) -> bool
    ensures { result ≡ names_plan call }
{
    matches!(call, Call::MarkRequested | Call::NextPeerRequest)
}

// The blocks that a call names; one that plans, or marks what was planned, names those of the plan.
#[tactic(auto, unfolding(crate::specs::Given::named))]
fn named(s: Step, p: Option<Plan>) -> Span
    ensures { result ≡ named s p }
{
    if !names_plan(s.call) {
        return Span::of(s.count as u64, s.first as u64, last_of(s.first, s.count));
    }
    match p {
        Some(p) => Span::of(p.count as u64, p.first as u64, p.last as u64),
        None => Span::of(0, 0, 0),
    }
}

#[tactic(auto, unfolding(crate::specs::Given::made))]
fn made(s: Step, p: Option<Plan>) -> Made
    ensures { result ≡ made s p }
{
    let n = named(s, p);
    Made {
        time: s.time,
        call: s.call,
        peer: (s.peer > 0).then_some(s.peer),
        first: n.first,
        last: n.last,
    }
}

fn after_of(
    pending: Result<u64, Refusal>,
    bytes: Result<u64, Refusal>,
    share: Result<u64, Refusal>,
) -> After
    ensures { result ≡ after_of pending bytes share }
{
    After {
        pending: pending.unwrap_or(0),
        bytes: bytes.unwrap_or(0),
        share: share.unwrap_or(0),
    }
}

// A call, its answer, and what the window says after it.
pub fn row_of(
    s: Step,
    p: Option<Plan>,
    said: Result<Said, Refusal>,
    pending: Result<u64, Refusal>,
    bytes: Result<u64, Refusal>,
    share: Result<u64, Refusal>,
) -> [u8; 81]
    ensures { result ≡ row (made s p) said (after_of pending bytes share) }
{
    let m = made(s, p);
    let a = after_of(pending, bytes, share);
    lines::rows::row(m, said, a)
}

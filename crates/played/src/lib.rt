// What a host does: a call of the demo's script made on the lent words. It answers what is said of the call, the book after it, and the last plan. What is asked of a peer is what
// was planned for it, as the plan stands in the two lists that are lent for it.
#![tactic(auto)]

ghost use Rattle.std.specs.Prelude.{◌≡◌, length, get_or};
ghost use Rattle.model.specs.Refusals.{changes};
ghost use Rattle.model.specs.Says.{accepted_says, let_go_says};
ghost use Rattle.lend.specs.Goes.{Goes, Leaves};
ghost use Rattle.ledger.specs.Book.{let_go};
ghost use Rattle.lines.specs.Words.{accepted, let_go as let_go_words};
ghost use Rattle.played.specs.Steps.{count_of, next_of, asking, fetching, receiving, rejecting, keeping, probing, opening, looking, making, planning, planned_by, plans_by, kept, Plays, Turns, TurnsBy};

use ledger::Book;
use lend::Reported;
use lines::{Call, Said};
use model::{Refusal, of_release, sizes};
use planning::Given;
use script::{Plan, Step};

#[derive(Clone, Copy)]
pub struct Outcome {
    pub said: Result<Said, Refusal>,
    pub book: Book,
}

#[derive(Clone, Copy)]
pub struct Turn {
    pub said: Result<Said, Refusal>,
    pub book: Book,
    pub plan: Option<Plan>,
}

// More room for staged blocks than the script needs.
const ROOM: u64 = 1_000_000_000;

// the reason of the report's second place: the first is the block that came
const SECOND_REASON: usize = sizes::RELEASE_WORDS + of_release::REASON;

// ---- a call that asks

fn count_of(p: Option<Plan>) -> usize
    ensures { result ≡ count_of p }
{
    p.map_or(0, |p| p.count)
}

fn next_of(p: Option<Plan>) -> u32
    ensures { result ≡ next_of p }
{
    p.map_or(0, |p| p.next)
}

// The last plan, as it stands in its lists: as many blocks as are handed in are booked. Where there is none, no blocks are.
fn ask(
    words: &mut [u64],
    hashes: &[u64],
    heights: &[u32],
    b: Book,
    p: Option<Plan>,
    s: Step,
) -> Outcome
    ensures { Plays (asking s p hashes.now heights.now) b words.old words.new result }
{
    let mean = window_queries::ewma_block_bytes(words);
    let count = count_of(p);
    let k = count.min(heights.len());
    let r = window::mark_requested(
        words,
        s.peer,
        hashes,
        &heights[..k],
        next_of(p),
        ROOM,
        ROOM,
        s.clock,
    );
    let n = k as u64;
    Outcome {
        said: lines::words::requested(r, n),
        book: b.requested(r, n, mean),
    }
}

fn fetch(words: &mut [u64], b: Book, s: Step) -> Outcome
    ensures { Plays (fetching s) b words.old words.new result }
{
    let mean = window_queries::ewma_block_bytes(words);
    let h = s.hash;
    let r = window::mark_owned_fetch(words, s.peer, h, s.first, false, ROOM, ROOM, s.clock);
    Outcome {
        said: lines::words::fetched(r),
        book: b.fetched(r, mean),
    }
}

// ---- a call that lets go

// A body of `other` bytes came from the peer.
fn receive(words: &mut [u64], b: Book, s: Step) -> Outcome
    ensures { Plays (receiving s) b words.old words.new result }
{
    let h = s.hash;
    let l = lend::mark_received_from(words, h, s.other, Some(s.peer), s.clock);
    let r = l.answer;
    let gone = l.gone;
    Outcome {
        said: lines::words::received(r, gone[SECOND_REASON]),
        book: b.let_go(gone, l.places),
    }
}

// A body from the peer proved to be wrong.
fn reject(words: &mut [u64], b: Book, s: Step) -> Outcome
    ensures { Plays (rejecting s) b words.old words.new result }
{
    let h = s.hash;
    let l = lend::reject_delivery(words, h, Some(s.peer), s.clock);
    let r = l.answer;
    let gone = l.gone;
    Outcome {
        said: lines::words::rejected(r),
        book: b.let_go(gone, l.places),
    }
}

// Every seat is kept but the peer's.
fn keep(words: &mut [u64], s: Step) -> Reported<Result<u64, Refusal>>
    ensures { Goes (changes (keeping s)) words.old words.new (let_go_says result.answer) result.places result.gone }
{
    let flags = script::all_but(s.peer);
    lend::retain_owned_by(words, &flags)
}

// Any other that does: the reason is that of the report's first place.
fn let_go(b: Book, l: Reported<Result<u64, Refusal>>) -> Outcome
    ensures { (result.said ≡ let_go_words l.answer (get_or l.gone 8 0)) × (result.book ≡ let_go b l.gone l.places) }
{
    let gone = l.gone;
    Outcome {
        said: lines::words::let_go(l.answer, gone[of_release::REASON]),
        book: b.let_go(gone, l.places),
    }
}

// ---- a call in which the book has no part

// How the block is waited for, with `other` blocks staged above it.
fn look(words: &mut [u64], b: Book, s: Step) -> Outcome
    ensures { Plays (looking s) b words.old words.new result }
{
    let h = s.hash;
    let highest = script::height_after(s.first, 8);
    let r = window::observe_blocked(
        words,
        Some(s.first),
        Some(h),
        false,
        s.other,
        Some(highest),
        s.clock,
    );
    Outcome {
        said: lines::words::blocked(r),
        book: b,
    }
}

// The peer is asked for eight blocks of their owner's too.
fn probe(words: &mut [u64], s: Step) -> Result<(), Refusal>
    ensures { Leaves (changes (probing s)) words.old (accepted_says result) words.new }
{
    let hashes = script::hashes_from::<32>(s.first);
    let alternates = [s.peer];
    window::confirm_prefix_probe(words, s.other, &hashes, &alternates, s.clock)
}

fn open(words: &mut [u64], s: Step) -> Result<(), Refusal>
    ensures { Leaves (opening s) words.old (accepted_says result) words.new }
{
    let keys = script::keys();
    let settings = script::settings();
    window::open(words, settings, &keys, s.clock)
}

// A call that is done or refused.
fn done(b: Book, r: Result<(), Refusal>) -> Outcome
    ensures { (result.said ≡ accepted r) × (result.book ≡ b) }
{
    Outcome {
        said: lines::words::accepted(r),
        book: b,
    }
}

// ---- any call

// Every call but the one that plans: that is made by `act`, and stands here as an opening, as does a number that is no call's. `other` is the owner of the blocks, or how many peers there are.
fn make(
    words: &mut [u64],
    hashes: &[u64],
    heights: &[u32],
    b: Book,
    p: Option<Plan>,
    s: Step,
) -> Outcome
    ensures { Plays (making s p hashes.now heights.now) b words.old words.new result }
{
    let h = s.hash;
    match s.call {
        Call::MarkRequested => ask(words, hashes, heights, b, p, s),
        Call::MarkOwnedFetch => fetch(words, b, s),
        Call::MarkReceivedFrom => receive(words, b, s),
        Call::RejectDelivery => reject(words, b, s),
        Call::ExpirePending => let_go(b, lend::expire_pending(words, s.clock)),
        Call::RequeueForRetry => {
            let_go(b, lend::requeue_for_retry(words, h, Some(s.first), s.clock))
        }
        Call::ReleasePending => let_go(b, lend::release_pending(words, h, s.clock)),
        Call::RetireBefore => let_go(b, lend::retire_before(words, s.first, s.clock)),
        Call::RetainOwnedBy => let_go(b, keep(words, s)),
        Call::ObserveBlocked => look(words, b, s),
        Call::ConfirmColdFrontHedge => {
            done(
                b,
                window::confirm_cold_front_hedge(words, s.other, s.peer, h),
            )
        }
        Call::ConfirmPrefixProbe => done(b, probe(words, s)),
        Call::SetFanoutEligiblePeers => {
            done(
                b,
                window::set_fanout_eligible_peers(words, s.other, s.clock),
            )
        }
        Call::ClearPreferredPeer => done(b, window::clear_preferred_peer(words)),
        Call::Open => done(b, open(words, s)),
        Call::NextPeerRequest => done(b, open(words, s)),
        Call::Other(_) => done(b, open(words, s)),
    }
}

// The next request of the peer is planned, up to the tip `other`, with room for `count` blocks. Every peer has the tip and all below it; the node refuses no block.
// It is called and not written out in `act`: the stack of every other call would else have its arrays too.
#[inline(never)]
fn propose(
    words: &mut [u64],
    hashes: &mut [u64],
    heights: &mut [u32],
    staged: &[u64],
    b: Book,
    p: Option<Plan>,
    s: Step,
) -> Turn
    ensures { Turns (planning s staged.now (length hashes.old) (length heights.old)) planned_by (kept p hashes.old heights.old staged.now) b
        words.old words.new hashes.new heights.new result }
{
    let tip = script::height_of(s.other);
    let n = script::words_to(tip);
    let chain = script::chain();
    let given = Given {
        chain: &chain[..n],
        tip,
        start: s.first,
        best: tip,
        floor: 0,
        staged,
        refused: &staged[..0],
        exhausted: false,
        byte_headroom: ROOM,
        count_headroom: s.count as u64,
    };
    let l = lend::next_peer_request(words, hashes, heights, s.peer, given, s.clock);
    let r = l.answer;
    let gone = l.gone;
    Turn {
        said: lines::words::planned(r, gone[of_release::REASON]),
        book: b.let_go(gone, l.places),
        plan: script::planned(r, heights),
    }
}

fn plans(call: Call) -> bool
    ensures { result ≡ plans_by call }
{
    matches!(call, Call::NextPeerRequest)
}

// One call of the script. The lists are lent one by one, of any length, as the public calls take them: a struct of references would be taken apart again in each call.
pub fn act(
    words: &mut [u64],
    hashes: &mut [u64],
    heights: &mut [u32],
    staged: &[u64],
    b: Book,
    p: Option<Plan>,
    s: Step,
) -> Turn
    ensures { TurnsBy s (kept p hashes.old heights.old staged.now) b words.old words.new hashes.new heights.new result }
{
    if plans(s.call) {
        return propose(words, hashes, heights, staged, b, p, s);
    }
    let d = make(words, hashes, heights, b, p, s);
    let said = d.said;
    let book = d.book;
    Turn {
        said,
        book,
        plan: p,
    }
}

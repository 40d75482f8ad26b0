// A node catches up through twelve peers: a script of calls, one line each, and the book at the end.
#![tactic(auto)]

ghost use Rattle.std.specs.Prelude.{◌≡◌, set};
ghost use Rattle.ledger.specs.Book.{balanced, total, none};
ghost use Rattle.lines.specs.Words.{verdicts};

use ledger::{Amount, Book};
use lines::Said;
use model::Refusal;
use played::act;
use script::{Plan, Staged, Step};
use std::io;

fn put(rt: &impl Print, s: &[u8]) -> io::Result<()> {
    rt.write_all(s)
}

// What is kept from call to call: the words of the window, the two lists that are lent for a plan, the last plan, the hashes that are staged, and the book.
#[derive(Drop)]
struct Host {
    words: [u64; 4096],
    hashes: [u64; 1024],
    heights: [u32; 256],
    plan: Option<Plan>,
    staged: Staged,
    book: Book,
}

impl Host {
    fn new() -> Self {
        Host {
            words: blank(),
            hashes: no_hashes(),
            heights: no_heights(),
            plan: None,
            staged: Staged::new(),
            book: Book::empty(),
        }
    }

    // One line a call.
    fn show(&self, rt: &impl Print, s: Step, said: Result<Said, Refusal>) -> io::Result<()> {
        let pending = window_queries::pending_len(&self.words);
        let bytes = window_queries::pending_bytes(&self.words);
        let share = window_queries::pending_count_for(&self.words, s.peer);
        let l = script::row_of(s, self.plan, said, pending, bytes, share);
        put(rt, &l)
    }

    // A line of the script: a call is made and shown, and a block that came by it is staged; any other line is written as it stands.
    fn turn(&mut self, rt: &impl Print, line: &[u8]) -> io::Result<()> {
        if !script::is_call(line) {
            return put(rt, line);
        }
        let s = script::step_of(line);
        let d = act(
            &mut self.words,
            &mut self.hashes,
            &mut self.heights,
            self.staged.words(),
            self.book,
            self.plan,
            s,
        );
        self.book = d.book;
        self.plan = d.plan;
        self.show(rt, s, d.said)?;
        self.staged.stage(s, d.said);
        Ok(())
    }

    fn play(&mut self, rt: &impl Print, text: &[u8]) -> io::Result<()> {
        for line in script::lines_of(text) {
            self.turn(rt, line)?;
        }
        Ok(())
    }
}

// The script. A call's line has after its colon which call (by its number: 0 open, 1 mark_requested, 2 mark_owned_fetch, 3 mark_received_from,
// 4 reject_delivery, 5 expire_pending, 6 requeue_for_retry, 7 release_pending, 8 retire_before, 9 retain_owned_by, 10 observe_blocked, 11 confirm_cold_front_hedge,
// 12 confirm_prefix_probe, 13 set_fanout_eligible_peers, 14 clear_preferred_peer, 15 next_peer_request); tenths of a second; the peer; the first block and how many; and one
// number more: the body's bytes, the owner of the blocks, how many blocks are staged, or how many peers there are. What a call does not have is left blank. 15 plans a request
// from the first block on, with room for so many, up to the tip, its last number; 1 marks what was planned last.
const SCRIPT: [u8; 3150] =
    *b"A node catches up from block 1 through twelve peers. One line a call: the call,
the first and the last block that it is about, its answer, and what is pending
after it. Peers are asked for what was planned.

                                    blocks             blocks pending:   pending
 second call                    peer       answer      this peer's all     bytes

Peer 1 is slow with block 1, so peer 2 is asked for it too, and is first.
Peer 1 loses the race, and block 2 with it.
:  0     0
: 15     0   1  1 2     40
:  1     0   1
: 10     1      1 1
: 10    21      1 1
: 11    21   2  1 1      1
:  3    23   2  1 1 250000
: 14    23

Peer 3 is asked for eight blocks, and peer 2 races it. Four blocks decide:
peer 3 loses, and its other four are let go.
: 15    24   3  2 8     40
:  1    24   3
: 12    24   2  2 8      3
:  3    26   2  2 1 260000
:  3    27   2  3 1 270000
:  3    28   2  4 1 280000
:  3    29   2  5 1 290000

Twelve peers are there. The two losers cool down, and get no plan. All others
are asked for two blocks each.
: 13    30              12
: 15    31   1  6 2     40
: 15    31   2  6 2     40
:  1    31   2
: 15    31   3  6 2     40
: 15    31   4  6 2     40
:  1    31   4
: 15    31   5  6 2     40
:  1    31   5
: 15    31   6  6 2     40
:  1    31   6
: 15    31   7  6 2     40
:  1    31   7
: 15    31   8  6 2     40
:  1    31   8
: 15    31   9  6 2     40
:  1    31   9
: 15    32  10  6 2     40
:  1    32  10
: 15    32  11  6 2     40
:  1    32  11
: 15    32  12  6 2     40
:  1    32  12

Four calls that make no sense are refused, and change nothing.
:  1    33  11
: 15    33 300  6 2     40
: 15    33   2  6 2     99
: 15    10   2  6 2     40

Blocks come in. Peer 6 leaves out block 13, and peer 9 block 18.
:  3    40   2  6 1 300000
:  3    41   5 10 1 310000
:  3    42   2  7 1 320000
:  3    43   6 12 1 310000
:  3    44   9 19 1 330000
:  3    45  10 20 1 300000
:  3    46  10 21 1 305000

Peer 5 does not have block 11. Peer 7 sends a wrong block 14, and a wrong
block 16, for which nobody asked it.
:  6    47     11 1
:  4    48   7 14 1
:  4    48   7 16 1

Peer 8 hangs up. All seats but its own are kept.
:  9    50   8

Peer 4 stalls: the chain waits for its block 8, with 200 blocks staged above.
After two seconds it is blamed, and dropped.
: 10    51      8 1    200
: 10    61      8 1    200
: 10    72      8 1    200
:  9    73   4

What peers skipped is swept. What was let go is asked for again: the plan for
peer 11 passes by what is pending and what came.
:  5    74
: 15    75   2  8 2     40
:  1    75   2
:  2    75  10 11 1
:  2    75  10 14 1
:  2    76   2 11 1
: 15    76  11  8 4     40
:  1    76  11
:  3    80   2  8 1 300000
:  3    81   2  9 1 300000

Block 22 came by another way, and blocks below 14 are no longer wanted.
:  7    82     22 1
:  8    83     14 1
:  3    84   7 15 1 290000

Half an hour later those who never answered have timed out: peer 11 gets no
plan. The plan for peer 2 sweeps their seven blocks, and asks for them again,
with one block more.
: 15 18000  11 14 8     40
: 15 18000   2 14 8     40
:  1 18001   2
";

fn script_text() -> [u8; 3150] {
    SCRIPT
}

// ---- the book at the end, and whether it adds up with what the window says

// A line of the book has 53 bytes and a line end.
fn entry(rt: &impl Print, k: usize, a: Amount) -> io::Result<()> {
    let l = lines::rows::entry(k, a.blocks, a.bytes);
    put(rt, &l[..54])
}

fn page(rt: &impl Print, amounts: [Amount; 13]) -> io::Result<()> {
    for (k, a) in amounts.iter().enumerate() {
        entry(rt, k, *a)?;
    }
    Ok(())
}

// What the program says of its book at the end, beside what the window says is pending.
fn verdict(b: Book, pending: Amount) -> [u8; 74]
    ensures { result ≡ verdicts (balanced b.opened (total 11 b.gone) pending) }
{
    lines::words::verdict(b.balanced(pending))
}

// What went by reason, with those that lost a hedge left out.
fn without_hedges(gone: [Amount; 11]) -> [Amount; 11]
    ensures { result ≡ set gone 10 none }
{
    let mut l = gone;
    l[10] = ledger::NONE;
    l
}

// The book and the verdict on it. The same book without one of its entries is judged too, so that both verdicts are seen.
fn close(rt: &impl Print, words: &[u64], b: Book) -> io::Result<()> {
    let pending = Amount {
        blocks: window_queries::pending_len(words).unwrap_or(0),
        bytes: window_queries::pending_bytes(words).unwrap_or(0),
    };
    put(
        rt,
        b"\nThe book                           blocks       bytes\n",
    )?;
    page(rt, b.page(pending))?;
    let v = verdict(b, pending);
    put(rt, &v)?;
    put(
        rt,
        b"\nThe same book without the block that went in the hedge:\n",
    )?;
    let l = b.gone;
    let gone = without_hedges(l);
    let lacking = Book {
        opened: b.opened,
        gone,
    };
    let w = verdict(lacking, pending);
    put(rt, &w)
}

fn blank() -> [u64; 4096] {
    [0; 4096]
}

// What is lent for a plan: its hashes and its heights.
fn no_hashes() -> [u64; 1024] {
    [0; 1024]
}

fn no_heights() -> [u32; 256] {
    [0; 256]
}

fn main(rt: HostRuntime) -> io::Result<()> {
    let mut h = Host::new();
    let text = script_text();
    h.play(&rt, &text)?;
    close(&rt, &h.words, h.book)
}

// The book that a program keeps beside the window: what it asked for, and what each call's report let go, by reason. Of the window's own
// totals it reads nothing: they are compared with it at the end.
#![tactic(auto)]

ghost use Rattle.std.specs.Prelude.{◌≡◌, ◌≤◌, min};
ghost use Rattle.ledger.specs.Book.{plus, added, more, total, place_of, one_more, tallied, adds_up, balanced, value, empty, opened, of_request, of_fetch, let_go, page};

use model::{Fetch, Refusal, of_release, sizes};

// Blocks, and the bytes that they are booked with. Both stop at the top of 64 bits.
#[derive(Clone, Copy)]
pub struct Amount {
    pub blocks: u64,
    pub bytes: u64,
}

// What was opened, and what was let go by reason. A report says a reason by its number, which is its place here; place 0 is of no reason.
#[derive(Clone, Copy)]
pub struct Book {
    pub opened: Amount,
    pub gone: [Amount; 11],
}

pub const NONE: Amount = Amount {
    blocks: 0,
    bytes: 0,
};

// The same number added n times: so many blocks were opened, each with this estimate.
#[tactic(auto, using(crate::proofs::Sums::added_is))]
fn add(a: u64, by: u64, n: u64) -> u64
    ensures { result ≡ added a by n }
{
    a.saturating_add(by.saturating_mul(n))
}

impl Amount {
    fn plus(self, other: Amount) -> Amount
        ensures { result ≡ plus self other }
    {
        Amount {
            blocks: self.blocks.saturating_add(other.blocks),
            bytes: self.bytes.saturating_add(other.bytes),
        }
    }

    // n blocks more, each with this estimate.
    #[tactic(auto, unfolding(crate::specs::Book::more))]
    fn more(self, n: u64, estimate: u64) -> Amount
        ensures { result ≡ more self n estimate }
    {
        Amount {
            blocks: add(self.blocks, 1, n),
            bytes: add(self.bytes, estimate, n),
        }
    }
}

fn place_of(reason: u64) -> usize
    ensures { (result ≡ place_of reason) × (result ≤ 10) }
{
    if reason <= 10 {
        return reason as usize;
    }
    0
}

// A block that was let go, and its estimate.
#[tactic(auto, unfolding(crate::specs::Book::one_more))]
fn one_more(l: [Amount; 11], reason: u64, estimate: u64) -> [Amount; 11]
    ensures { result ≡ one_more l reason estimate }
{
    let k = place_of(reason);
    let mut m = l;
    m[k] = l[k].plus(Amount {
        blocks: 1,
        bytes: estimate,
    });
    m
}

// What the first n places of a report let go, by reason. A report has 256 places.
#[tactic(auto, unfolding(crate::specs::Book::tallied))]
fn tally(l: [Amount; 11], gone: [u64; sizes::REPORT_WORDS], n: usize) -> [Amount; 11]
    ensures { result ≡ tallied gone (min n 256) l }
{
    let mut m = l;
    for i in 0..n.min(sizes::PLACES) {
        let k = sizes::RELEASE_WORDS * i;
        let x = one_more(
            m,
            gone[k + of_release::REASON],
            gone[k + of_release::ESTIMATE],
        );
        m = x;
    }
    m
}

#[tactic(auto, unfolding(crate::specs::Book::total))]
fn total(l: [Amount; 11]) -> Amount
    ensures { result ≡ total 11 l }
{
    let mut s = NONE;
    for x in l {
        s = s.plus(x);
    }
    s
}

fn adds_up(opened: u64, gone: u64, pending: u64) -> bool
    ensures { result ≡ adds_up opened gone pending }
{
    gone <= opened && opened - gone == pending
}

// How many of the n blocks of a request were opened.
fn of_request(answer: Result<bool, Refusal>, n: u64) -> u64
    ensures { result ≡ of_request answer n }
{
    if answer.is_ok() { n } else { 0 }
}

fn of_fetch(answer: Result<Fetch, Refusal>) -> u64
    ensures { result ≡ of_fetch answer }
{
    match answer {
        Ok(Fetch::Asked) => 1,
        _ => 0,
    }
}

impl Book {
    pub fn empty() -> Book
        ensures { result ≡ empty }
    {
        Book {
            opened: NONE,
            gone: [NONE; 11],
        }
    }

    // ---- what a call's answer and report write in the book

    // n blocks were opened, each with this estimate.
    #[tactic(auto, unfolding(crate::specs::Book::opened))]
    fn opened(self, n: u64, estimate: u64) -> Book
        ensures { result ≡ opened self n estimate }
    {
        let gone = self.gone;
        Book {
            opened: self.opened.more(n, estimate),
            gone,
        }
    }

    // A request of n blocks; the mean that the window said before it, 0 where that is refused, is the estimate of each.
    pub fn requested(
        self,
        answer: Result<bool, Refusal>,
        n: u64,
        mean: Result<u64, Refusal>,
    ) -> Book
        ensures { result ≡ opened self (of_request answer n) (value mean) }
    {
        self.opened(of_request(answer, n), mean.unwrap_or(0))
    }

    // A fetch of one block.
    pub fn fetched(self, answer: Result<Fetch, Refusal>, mean: Result<u64, Refusal>) -> Book
        ensures { result ≡ opened self (of_fetch answer) (value mean) }
    {
        self.opened(of_fetch(answer), mean.unwrap_or(0))
    }

    // What the first n places of a report let go.
    #[tactic(auto, unfolding(crate::specs::Book::let_go))]
    pub fn let_go(self, report: [u64; sizes::REPORT_WORDS], n: usize) -> Book
        ensures { result ≡ let_go self report n }
    {
        let l = self.gone;
        let gone = tally(l, report, n);
        Book {
            opened: self.opened,
            gone,
        }
    }

    // ---- the page at the end

    // Whether the book adds up: what was opened is what was let go and what the window says is pending, in blocks and in bytes.
    pub fn balanced(self, pending: Amount) -> bool
        ensures { result ≡ balanced self.opened (total 11 self.gone) pending }
    {
        let l = self.gone;
        let gone = total(l);
        let right = adds_up(self.opened.blocks, gone.blocks, pending.blocks);
        let right_bytes = adds_up(self.opened.bytes, gone.bytes, pending.bytes);
        right & right_bytes
    }

    // What was opened, what was let go by reason and in all, and what the window says is pending.
    #[tactic(auto, unfolding(crate::specs::Book::page))]
    pub fn page(self, pending: Amount) -> [Amount; 13]
        ensures { result ≡ page self pending }
    {
        let gone = self.gone;
        let all = total(gone);
        [
            self.opened,
            gone[1],
            gone[2],
            gone[3],
            gone[4],
            gone[5],
            gone[6],
            gone[7],
            gone[8],
            gone[9],
            gone[10],
            all,
            pending,
        ]
    }
}

// One line a call: when, what, with whom, which blocks, the answer, and the window after it. 80 bytes and a line end.
ghost use Rattle.std.specs.Prelude.{◌≡◌};
ghost use Rattle.lines.specs.Rows.{begun, asked, sentence, answered, share_of, left, row, entry_line, entry};

use crate::cells::{put, put_number};
use crate::words::last_word;
use crate::{After, Call, Entry, Made, Said};
use model::Refusal;

#[tactic(auto, unfolding(crate::specs::Rows::begun))]
fn begun(time: u64, call: Call) -> [u8; 81]
    ensures { result ≡ begun time call }
{
    let mut l: [u8; 81] = [b' '; 81];
    l[80] = b'\n';
    let a = put_number(l, 0, 5, Some(time / 10));
    let b = put_number(a, 6, 1, Some(time % 10));
    let c = put(b, 5, b".");
    let w = call.name();
    put(c, 8, &w)
}

#[tactic(auto, unfolding(crate::specs::Rows::asked))]
fn asked(m: Made, line: [u8; 81]) -> [u8; 81]
    ensures { result ≡ asked m line }
{
    let a = put_number(line, 33, 3, m.peer);
    let b = put_number(a, 36, 3, m.first);
    put_number(b, 39, 3, m.last)
}

// A head, a number or none, and a tail.
#[tactic(auto, unfolding(crate::specs::Rows::sentence))]
fn sentence(s: Said, line: [u8; 81]) -> [u8; 81]
    ensures { result ≡ sentence s line }
{
    let h = s.head.word();
    let a = put(line, 43, &h);
    let b = put_number(a, 51, 3, s.number);
    let t = last_word(s.tail);
    put(b, 54, &t)
}

fn answered(s: Result<Said, Refusal>, line: [u8; 81]) -> [u8; 81]
    ensures { result ≡ answered s line }
{
    match s {
        Err(r) => sentence(Said::refused(r), line),
        Ok(s) => sentence(s, line),
    }
}

// The peer's share, where there is a peer.
fn share_of(peer: Option<u64>, share: u64) -> Option<u64>
    ensures { result ≡ share_of peer share }
{
    peer.map(|_| share)
}

#[tactic(auto, unfolding(crate::specs::Rows::left))]
fn left(m: Made, a: After, line: [u8; 81]) -> [u8; 81]
    ensures { result ≡ left m a line }
{
    let share = share_of(m.peer, a.share);
    let x = put_number(line, 65, 2, share);
    let y = put_number(x, 67, 3, Some(a.pending));
    put_number(y, 70, 10, Some(a.bytes))
}

#[tactic(auto, unfolding(crate::specs::Rows::row))]
pub fn row(m: Made, s: Result<Said, Refusal>, a: After) -> [u8; 81]
    ensures { result ≡ row m s a }
{
    let l = begun(m.time, m.call);
    let p = asked(m, l);
    let q = answered(s, p);
    left(m, a, q)
}

// A line of the book: 53 bytes and a line end, then blanks.
#[tactic(auto, unfolding(crate::specs::Rows::entry_line))]
pub fn entry_line(e: Entry, blocks: u64, bytes: u64) -> [u8; 81]
    ensures { result ≡ entry_line e blocks bytes }
{
    let mut l: [u8; 81] = [b' '; 81];
    l[53] = b'\n';
    let w = e.words();
    let a = put(l, 0, &w);
    let b = put_number(a, 33, 8, Some(blocks));
    put_number(b, 41, 12, Some(bytes))
}

// The line at a place of the page.
pub fn entry(k: usize, blocks: u64, bytes: u64) -> [u8; 81]
    ensures { result ≡ entry k blocks bytes }
{
    entry_line(Entry::nth(k), blocks, bytes)
}

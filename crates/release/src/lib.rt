// SPECIFICATION 6.7, 7.9, 7.10, without refusals and lent report: one entry let go, released or for a retry. What goes is written, nine words each,
// in `gone`; the answer is how many. The last clock is not set here: the public call does that last.
#![tactic(auto)]

ghost use Rattle.std.specs.Prelude.{◌≡◌, ◌<◌, ◌≤◌, length, get_or};
ghost use Rattle.model.specs.Reasons.{reason_number};
ghost use Rattle.model.specs.LettingGo.{remove_pending, release_pending, lower_to, requeue_for_retry};
ghost use Rattle.model.specs.Layout.{window_of, blank};
ghost use Rattle.laws.specs.Sound.{Sound};
ghost use Rattle.laws.specs.Whole.{Whole, Holds};
ghost use Rattle.report_words.specs.Report.{releases_of};
ghost use Rattle.release.specs.Removes.{out_at};

use model::{Entry, Hash, Reason, Words};

// ---- one entry

// `out_at`: the entry e at a place goes out, its owner's start is reset, and the frontier follows the table of reasons.
fn let_out(words: &mut Words, at: usize, e: Entry, reason: u64, clock: u64)
    requires { Whole words.old × (Sound clock (window_of words.old) × ((at < length (window_of words.old).queue.pending) × (e ≡ get_or (window_of words.old).queue.pending at blank))) }
    ensures { Holds (out_at at e reason clock (window_of words.old)) words.new }
{
    let f = state::get_frontier(words);
    let low = reasons::lowered(reason, e.height, f);
    let owner = e.owner as usize;
    state_queue::take_out(words, at);
    state_queue::reset_owner_queue_start(words, owner, e.time, clock);
    state::set_frontier(words, low);
}

// `remove_pending`, for any number as the reason.
pub fn remove_pending(
    words: &mut Words,
    gone: &mut [u64],
    h: Hash,
    reason: u64,
    clock: u64,
) -> usize
    requires { Whole words.old × (Sound clock (window_of words.old) × (9 ≤ length gone.old)) }
    ensures { (result ≤ 1)
        × (Holds (remove_pending h reason clock (window_of words.old)).window words.new)
        × (releases_of result gone.new ≡ (remove_pending h reason clock (window_of words.old)).gone) }
{
    let p = state_queue::find(words, h);
    match p {
        Ok(at) => {
            let e = state_queue::entry_at(words, at);
            let_out(words, at, e, reason, clock);
            report_words::put_release(gone, 0, e, reason);
            return 1;
        }
        Err(_) => {
            return 0;
        }
    }
}

// `remove_pending`, for one of the reasons.
pub fn remove_pending_by(
    words: &mut Words,
    gone: &mut [u64],
    h: Hash,
    reason: Reason,
    clock: u64,
) -> usize
    requires { Whole words.old × (Sound clock (window_of words.old) × (9 ≤ length gone.old)) }
    ensures { (result ≤ 1)
        × (Holds (remove_pending h (reason_number reason) clock (window_of words.old)).window words.new)
        × (releases_of result gone.new ≡ (remove_pending h (reason_number reason) clock (window_of words.old)).gone) }
{
    remove_pending(words, gone, h, u64::from(reason), clock)
}

// `release_pending`
pub fn release_pending(words: &mut Words, gone: &mut [u64], h: Hash, clock: u64) -> usize
    requires { Whole words.old × (Sound clock (window_of words.old) × (9 ≤ length gone.old)) }
    ensures { (result ≤ 1)
        × (Holds (release_pending h clock (window_of words.old)).window words.new)
        × (releases_of result gone.new ≡ (release_pending h clock (window_of words.old)).gone) }
{
    remove_pending_by(words, gone, h, Reason::Released, clock)
}

// `lower_to`: a height that was named lowers the frontier.
fn lower_to(words: &mut Words, named: Option<u64>)
    requires { Whole words.old }
    ensures { Holds (lower_to named (window_of words.old)) words.new }
{
    if let Some(n) = named {
        let f = state::get_frontier(words);
        let low = numbers::lesser(f, n);
        state::set_frontier(words, low);
    }
}

// `requeue_for_retry`
pub fn requeue_for_retry(
    words: &mut Words,
    gone: &mut [u64],
    h: Hash,
    named: Option<u64>,
    clock: u64,
) -> usize
    requires { Whole words.old × (Sound clock (window_of words.old) × (9 ≤ length gone.old)) }
    ensures { (result ≤ 1)
        × (Holds (requeue_for_retry h named clock (window_of words.old)).window words.new)
        × (releases_of result gone.new ≡ (requeue_for_retry h named clock (window_of words.old)).gone) }
{
    let n = remove_pending_by(words, gone, h, Reason::Retry, clock);
    lower_to(words, named);
    n
}

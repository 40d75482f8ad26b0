// SPECIFICATION 7.7: the calls that may let go, in words that hold a window, without refusals and lent report. What goes is written, nine words each,
// in `gone`. The last clock is not set here: the public call does it last.
#![tactic(auto)]

ghost use Rattle.std.specs.Prelude.{◌≡◌, length, ◌≤◌};
ghost use Rattle.model.specs.Numbers.{max_seat};
ghost use Rattle.model.specs.Calls.{body_noted, credit_duplicate_delivery, height_of, is_owner, reject_delivery};
ghost use Rattle.model.specs.Records.{found};
ghost use Rattle.model.specs.Queries.{flag};
ghost use Rattle.model.specs.Perform.{says};
ghost use Rattle.model.specs.Says.{rejected_answer};
ghost use Rattle.model.specs.Layout.{window_of};
ghost use Rattle.laws.specs.Sound.{Sound};
ghost use Rattle.laws.specs.Whole.{Whole, Holds};
ghost use Rattle.report_words.specs.Report.{releases_of};

use model::{Entry, Hash, Reason, Rejected, Words};

// ---- deliveries

// `height_of`: an unasked body has no pending height.
pub fn height_of(front: Option<Entry>) -> Option<u64>
    ensures { result ≡ height_of front }
{
    front.map(|e| e.height)
}

// What `credit_delivery_from` does before the races: the source's last body, and the observation.
pub fn credit_begun(words: &mut Words, h: Hash, source: u64, clock: u64)
    requires { Whole words.old × (Sound clock (window_of words.old) × (source ≤ max_seat)) }
    ensures { Holds (credit_duplicate_delivery h source (body_noted source clock (window_of words.old))) words.new }
{
    state_queue::note_body(words, source as usize, clock);
    deliveries::credit_duplicate_delivery(words, h, source);
}

// ---- rejections

// `is_owner`: a missing source owns nothing.
fn is_owner(source: Option<u64>, front: Option<Entry>) -> bool
    ensures { result ≡ is_owner source front }
{
    match (source, front) {
        (Some(s), Some(e)) => e.owner == s,
        _ => false,
    }
}

// `reject_delivery`, and what it says: only its owner's rejection lets the entry go.
pub fn reject_delivery(
    words: &mut Words,
    gone: &mut [u64],
    h: Hash,
    source: Option<u64>,
    clock: u64,
) -> Rejected
    requires { Whole words.old × (Sound clock (window_of words.old) × (9 ≤ length gone.old)) }
    ensures { (rejected_answer result ≡ says (length (reject_delivery h source clock (window_of words.old)).gone) (flag (is_owner source (found h (window_of words.old).queue.pending))))
        × (Holds (reject_delivery h source clock (window_of words.old)).window words.new)
        × (releases_of (length (reject_delivery h source clock (window_of words.old)).gone) gone.new ≡ (reject_delivery h source clock (window_of words.old)).gone) }
{
    let front = queries::found(words, h);
    let owns = is_owner(source, front);
    deliveries::rejected_by(words, source, h);
    if owns {
        let n = release::remove_pending_by(words, gone, h, Reason::OwnerRejection, clock);
        return Rejected::ReleasedPending(n as u64);
    }
    Rejected::DiscardedUnsolicited
}

// The calls that let go, with their refusals, in lent words. What went is written, nine words each, in `gone`: the public call writes the lent report
// from it. `room` is that report's length. Each promises `LetsGo` of the change that it is (specs/Letting.antt): answer, words and what went are
// those of the definitions. A call that lets go one entry at most asks for nine words, the others for 256 times nine.
#![tactic(auto)]

ghost use Rattle.std.specs.Prelude.{◌≡◌, [], length};
ghost use Rattle.model.specs.Refusals.{releases, requeues, rejects, expires, retires, retains, credits, receives};
ghost use Rattle.model.specs.Perform.{Answer, says};
ghost use Rattle.model.specs.Says.{places_answer, rejected_answer, received_answer, next_request_answer, says_by, let_go_says, rejected_says, received_says};
ghost use Rattle.model.specs.Window.{with_clock};
ghost use Rattle.model.specs.Layout.{window_of};
ghost use Rattle.laws.specs.Whole.{Whole, Holds};
ghost use Rattle.letting_go.specs.Letting.{places, LetsGo};

use model::{Gone, Hash, NextRequest, OneGone, Received, Refusal, Rejected, Words, limits, sizes};

// The last clock is set last, and the answer counts what went.
fn gone_at(words: &mut Words, n: usize, moment: u64) -> Result<u64, Refusal>
    requires { Whole words.old }
    ensures { (let_go_says result ≡ says n []) × Holds (with_clock moment (window_of words.old)) words.new }
{
    state::set_clock(words, moment);
    Ok(n as u64)
}

// `releases`
pub fn release_pending(
    words: &mut [u64],
    room: usize,
    gone: &mut OneGone,
    h: Hash,
    clock: u64,
) -> Result<u64, Refusal>
    ensures { LetsGo (length gone.old) (releases clock h) words.old room (let_go_says result) words.new gone.new }
{
    let words: &mut Words = words.as_mut_array().ok_or(Refusal::WordCount)?;
    admission::admitted(words, Some(room), Some(clock), true)?;
    let n = release::release_pending(words, gone, h, clock);
    gone_at(words, n, clock)
}

// `requeues`
pub fn requeue_for_retry(
    words: &mut [u64],
    room: usize,
    gone: &mut OneGone,
    h: Hash,
    named: Option<u32>,
    clock: u64,
) -> Result<u64, Refusal>
    ensures { LetsGo (length gone.old) (requeues clock h named) words.old room (let_go_says result) words.new gone.new }
{
    let words: &mut Words = words.as_mut_array().ok_or(Refusal::WordCount)?;
    admission::admitted(words, Some(room), Some(clock), true)?;
    let height = heights::widened(named);
    let n = release::requeue_for_retry(words, gone, h, height, clock);
    gone_at(words, n, clock)
}

// `rejects`
pub fn reject_delivery(
    words: &mut [u64],
    room: usize,
    gone: &mut OneGone,
    h: Hash,
    source: Option<u64>,
    clock: u64,
) -> Result<Rejected, Refusal>
    ensures { LetsGo (length gone.old) (rejects clock h source) words.old room (rejected_says result) words.new gone.new }
{
    let words: &mut Words = words.as_mut_array().ok_or(Refusal::WordCount)?;
    let p = admission::source_ok(source);
    admission::admitted(words, Some(room), Some(clock), p)?;
    let r = calls::reject_delivery(words, gone, h, source, clock);
    state::set_clock(words, clock);
    Ok(r)
}

// `expires`
pub fn expire_pending(
    words: &mut [u64],
    room: usize,
    gone: &mut Gone,
    clock: u64,
) -> Result<u64, Refusal>
    ensures { LetsGo (length gone.old) (expires clock) words.old room (let_go_says result) words.new gone.new }
{
    let words: &mut Words = words.as_mut_array().ok_or(Refusal::WordCount)?;
    admission::admitted(words, Some(room), Some(clock), true)?;
    let n = sweep::expire_pending(words, gone, clock);
    gone_at(words, n, clock)
}

// `retires`
pub fn retire_before(
    words: &mut [u64],
    room: usize,
    gone: &mut Gone,
    height: u32,
    clock: u64,
) -> Result<u64, Refusal>
    ensures { LetsGo (length gone.old) (retires clock height) words.old room (let_go_says result) words.new gone.new }
{
    let words: &mut Words = words.as_mut_array().ok_or(Refusal::WordCount)?;
    admission::admitted(words, Some(room), Some(clock), true)?;
    let n = sweep::retire_before(words, gone, height as u64, clock);
    gone_at(words, n, clock)
}

// `retains`: it takes no clock, and leaves the last one
pub fn retain_owned_by(
    words: &mut [u64],
    room: usize,
    gone: &mut Gone,
    flags: &[u64],
) -> Result<u64, Refusal>
    ensures { LetsGo (length gone.old) (retains flags.now) words.old room (let_go_says result) words.new gone.new }
{
    let words: &mut Words = words.as_mut_array().ok_or(Refusal::WordCount)?;
    let flags = admission::flags_admitted(words, room, flags)?;
    let lost = retain::retain_owned_by(words, gone, flags);
    Ok(lost as u64)
}

// ---- deliveries

// `credits`
pub fn credit_delivery_from(
    words: &mut [u64],
    room: usize,
    gone: &mut Gone,
    h: Hash,
    source: u64,
    height: Option<u32>,
    clock: u64,
) -> Result<u64, Refusal>
    ensures { LetsGo (length gone.old) (credits clock h source height) words.old room (let_go_says result) words.new gone.new }
{
    let words: &mut Words = words.as_mut_array().ok_or(Refusal::WordCount)?;
    admission::admitted(words, Some(room), Some(clock), source <= limits::MAX_SEAT)?;
    let pending = heights::widened(height);
    let n = delivery_calls::credit_delivery_from(words, gone, h, source, pending, clock);
    gone_at(words, n, clock)
}

// `receives`
pub fn mark_received_from(
    words: &mut [u64],
    room: usize,
    gone: &mut Gone,
    h: Hash,
    bytes: u64,
    source: Option<u64>,
    clock: u64,
) -> Result<Received, Refusal>
    ensures { LetsGo (length gone.old) (receives clock h bytes source) words.old room (received_says result) words.new gone.new }
{
    let words: &mut Words = words.as_mut_array().ok_or(Refusal::WordCount)?;
    let p = admission::source_ok(source);
    admission::body_refused_by(words, room, clock, p, bytes)?;
    let r = delivery_calls::mark_received_from(words, gone, h, bytes, source, clock);
    state::set_clock(words, clock);
    Ok(r)
}

// ---- how many places of the report an answer counts

// What an accepted call that lets go answers: it says how many places of the report were filled.
pub trait Counted {
    ghost answer: { Self → Answer };

    fn count(self) -> usize
        ensures { result ≡ places (answer self) };
}

impl Counted for u64 {
    ghost answer = { places_answer };

    fn count(self) -> usize {
        self as usize
    }
}

impl Counted for Rejected {
    ghost answer = { rejected_answer };

    fn count(self) -> usize {
        match self {
            Rejected::ReleasedPending(n) => n as usize,
            Rejected::DiscardedUnsolicited => 0,
        }
    }
}

impl Counted for Received {
    ghost answer = { received_answer };

    fn count(self) -> usize {
        self.places as usize
    }
}

impl Counted for NextRequest {
    ghost answer = { next_request_answer };

    fn count(self) -> usize {
        let NextRequest { places, .. } = self;
        places as usize
    }
}

// A refusal counts none.
pub fn places_of<A: Counted>(r: Result<A, Refusal>) -> usize
    ensures { result ≡ places (says_by A.answer r) }
{
    match r {
        Err(_) => 0,
        Ok(a) => a.count(),
    }
}

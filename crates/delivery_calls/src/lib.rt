// SPECIFICATION 7.4, 7.5: deliveries, in words that hold a window, without refusals and lent report. What goes is written, nine words each, in
// `gone`: the delivered entry first, then what the credit let go. The last clock is not set here: the public call does it last.
#![tactic(auto)]

ghost use Rattle.std.specs.Prelude.{◌≡◌, true, ◌++◌, ◌+◌, ◌≤◌, length};
ghost use Rattle.model.specs.Numbers.{max_seat, max_body};
ghost use Rattle.model.specs.Layout.{window_of};
ghost use Rattle.model.specs.Records.{found};
ghost use Rattle.model.specs.Races.{resolve_cold_front_delivery, record_prefix_probe_delivery};
ghost use Rattle.model.specs.Calls.{credit_delivery_from, credit_by, mark_received_from};
ghost use Rattle.model.specs.Refusals.{source_ok};
ghost use Rattle.model.specs.Perform.{says, height_values};
ghost use Rattle.model.specs.Says.{received_answer};
ghost use Rattle.model.specs.Window.{and_then};
ghost use Rattle.laws.specs.Sound.{Sound, SoundSource};
ghost use Rattle.laws.specs.Whole.{Whole, Holds};
ghost use Rattle.report_words.specs.Report.{releases_of};
ghost use Rattle.delivery_calls.specs.Receives.{delivered, taken};

use model::{Entry, Gone, Hash, Reason, Received, Words};

// ---- credit

// The cold front, then the race. Where a lost hedge let go, no probe is left.
fn credit_races(words: &mut Words, gone: &mut Gone, h: Hash, source: u64, clock: u64) -> usize
    requires { Whole words.old × (Sound clock (window_of words.old)) × (source ≤ max_seat) }
    ensures { (result ≤ 256)
        × (Holds (and_then (resolve_cold_front_delivery h source clock (window_of words.old)) (record_prefix_probe_delivery h source clock)).window words.new)
        × (releases_of result gone.new ≡ (and_then (resolve_cold_front_delivery h source clock (window_of words.old)) (record_prefix_probe_delivery h source clock)).gone) }
{
    let n = races::resolve_cold_front_delivery(words, gone, h, source, clock);
    if n != 0 {
        return n;
    }
    probe_race::record_prefix_probe_delivery(words, gone, h, source, clock)
}

// `credit_delivery_from`
pub fn credit_delivery_from(
    words: &mut Words,
    gone: &mut Gone,
    h: Hash,
    source: u64,
    height: Option<u64>,
    clock: u64,
) -> usize
    requires { Whole words.old × (Sound clock (window_of words.old)) × (source ≤ max_seat) }
    ensures { (result ≤ 256)
        × (Holds (credit_delivery_from h source height clock (window_of words.old)).window words.new)
        × (releases_of result gone.new ≡ (credit_delivery_from h source height clock (window_of words.old)).gone) }
{
    calls::credit_begun(words, h, source, clock);
    let n = credit_races(words, gone, h, source, clock);
    deliveries::progress_by(words, height, source, h, clock);
    n
}

// `credit_by`: the source is credited, if there is one.
fn credit_by(
    words: &mut Words,
    gone: &mut Gone,
    source: Option<u64>,
    h: Hash,
    height: Option<u64>,
    clock: u64,
) -> usize
    requires { Whole words.old × (Sound clock (window_of words.old)) × SoundSource source }
    ensures { (result ≤ 256)
        × (Holds (credit_by source h height clock (window_of words.old)).window words.new)
        × (releases_of result gone.new ≡ (credit_by source h height clock (window_of words.old)).gone) }
{
    match source {
        None => 0,
        Some(s) => credit_delivery_from(words, gone, h, s, height, clock),
    }
}

// ---- a body

// The delivered entry, where there is one, before the n releases that the credit left. Most often it left none, and nothing has to move.
fn put_delivered(gone: &mut Gone, front: Option<Entry>, n: usize) -> usize
    requires { length (delivered front) + n ≤ 256 }
    ensures { releases_of result gone.new ≡ delivered front ++ releases_of n gone.old }
{
    let Some(e) = front else {
        return n;
    };
    if n == 0 {
        report_words::put_release(gone, 0, e, u64::from(Reason::Delivered));
        return 1;
    }
    let first = report_words::nine(e, u64::from(Reason::Delivered));
    report_first::put_first(gone, &first);
    n + 1
}

// `taken`: the entry goes, whoever sent its body, and then the source is credited.
fn take_delivered(
    words: &mut Words,
    gone: &mut Gone,
    h: Hash,
    front: Option<Entry>,
    source: Option<u64>,
    clock: u64,
) -> usize
    requires { Whole words.old × (Sound clock (window_of words.old)) × SoundSource source × (front ≡ found h (window_of words.old).queue.pending) }
    ensures { (Holds (taken h source clock (window_of words.old)).window words.new)
        × (releases_of result gone.new ≡ (taken h source clock (window_of words.old)).gone) }
{
    let height = calls::height_of(front);
    release::remove_pending_by(words, gone, h, Reason::Delivered, clock);
    let n = credit_by(words, gone, source, h, height, clock);
    put_delivered(gone, front, n)
}

// What a delivery says: places filled, and the height where the block was pending.
fn received(front: Option<Entry>, places: u64) -> Received
    ensures { received_answer result ≡ says places (height_values front) }
{
    Received {
        places,
        height: calls::height_of(front),
    }
}

// `mark_received_from`, and what it says.
pub fn mark_received_from(
    words: &mut Words,
    gone: &mut Gone,
    h: Hash,
    bytes: u64,
    source: Option<u64>,
    clock: u64,
) -> Received
    requires { Whole words.old × (Sound clock (window_of words.old)) × (bytes ≤ max_body) × (source_ok source ≡ true) }
    ensures { (received_answer result ≡ says (length (mark_received_from h bytes source clock (window_of words.old)).gone) (height_values (found h (window_of words.old).queue.pending)))
        × (length (mark_received_from h bytes source clock (window_of words.old)).gone ≤ 256)
        × (Holds (mark_received_from h bytes source clock (window_of words.old)).window words.new)
        × (releases_of (length (mark_received_from h bytes source clock (window_of words.old)).gone) gone.new ≡ (mark_received_from h bytes source clock (window_of words.old)).gone) }
{
    let front = queries::found(words, h);
    let n = take_delivered(words, gone, h, front, source, clock);
    deliveries::move_mean(words, front, bytes);
    received(front, n as u64)
}

// The calls, each with its arguments in the order of crates/kofudile/API.md.
ghost use Rattle.std.specs.Prelude.{◌≡◌};
ghost use Rattle.model.specs.Refusals.{changes};
ghost use Rattle.model.specs.Says.{accepted_says, requested_says, fetch_says, blocked_says, let_go_says};
ghost use Rattle.lend.specs.Goes.{Goes, Leaves};
ghost use Rattle.recorded.specs.Said.{alone};
ghost use Rattle.replayed.specs.Calls.{confirming, requesting, fetching, looking, receiving, rejecting, opening, doing, letting, told, says_received, says_rejected, says_gone, call_at, Performs};

use crate::asks::query;
use crate::kinds::{Doing, Kind, Letting};
use lend::Reported;
use model::{Blocked, Fetch, Refusal};
use recorded::arguments::{flags_at, lists_at, opening_at};
use recorded::stream::Place;
use recorded::{Said, answers};

fn request(words: &mut [u64], a: Place) -> Result<bool, Refusal>
    ensures { Leaves (changes (requesting a.entry.numbers.now a.entry.at)) words.old (requested_says result) words.new }
{
    let (hashes, heights) = lists_at::<u32>(a, 5);
    window::mark_requested(
        words,
        a.nth(0),
        hashes.as_slice(),
        heights.as_slice(),
        a.height(1),
        a.nth(2),
        a.nth(3),
        a.nth(4),
    )
}

fn owned_fetch(words: &mut [u64], a: Place) -> Result<Fetch, Refusal>
    ensures { Leaves (changes (fetching a.entry.numbers.now a.entry.at)) words.old (fetch_says result) words.new }
{
    window::mark_owned_fetch(
        words,
        a.nth(0),
        a.hash(1),
        a.height(5),
        a.is_set(6),
        a.nth(7),
        a.nth(8),
        a.nth(9),
    )
}

fn confirm(words: &mut [u64], a: Place) -> Result<(), Refusal>
    ensures { Leaves (changes (confirming a.entry.numbers.now a.entry.at)) words.old (accepted_says result) words.new }
{
    let (given, others) = lists_at::<u64>(a, 2);
    window::confirm_prefix_probe(
        words,
        a.nth(0),
        given.as_slice(),
        others.as_slice(),
        a.nth(1),
    )
}

fn looks(words: &mut [u64], a: Place) -> Result<Blocked, Refusal>
    ensures { Leaves (changes (looking a.entry.numbers.now a.entry.at)) words.old (blocked_says result) words.new }
{
    let frontier = a.is_set(2).then_some(a.hash(3));
    window::observe_blocked(
        words,
        a.perhaps_height(0),
        frontier,
        a.is_set(7),
        a.nth(8),
        a.perhaps_height(9),
        a.nth(11),
    )
}

fn opens(words: &mut [u64], a: Place) -> Result<(), Refusal>
    ensures { Leaves (opening a.entry.numbers.now a.entry.at) words.old (accepted_says result) words.new }
{
    let o = opening_at(a);
    window::open(words, o.settings, &o.keys, o.clock)
}

// The calls that are done or refused.
fn accepted(words: &mut [u64], a: Place, kind: Doing) -> Result<(), Refusal>
    ensures { Leaves (doing a.entry.numbers.now a.entry.at kind) words.old (accepted_says result) words.new }
{
    match kind {
        Doing::Open => opens(words, a),
        Doing::CreditDuplicateDelivery => {
            window::credit_duplicate_delivery(words, a.hash(0), a.nth(4))
        }
        Doing::MarkPeerUnresponsive => window::mark_peer_unresponsive(words, a.nth(0), a.nth(1)),
        Doing::ConfirmPrefixProbe => confirm(words, a),
        Doing::ConfirmColdFrontHedge => {
            window::confirm_cold_front_hedge(words, a.nth(0), a.nth(1), a.hash(2))
        }
        Doing::SetFanoutEligiblePeers => {
            window::set_fanout_eligible_peers(words, a.nth(0), a.nth(1))
        }
        Doing::ClearPreferredPeer => window::clear_preferred_peer(words),
    }
}

fn lets_go(words: &mut [u64], a: Place, kind: Letting) -> Reported<Result<u64, Refusal>>
    ensures { Goes (changes (letting a.entry.numbers.now a.entry.at kind)) words.old words.new (let_go_says result.answer) result.places result.gone }
{
    match kind {
        Letting::CreditDeliveryFrom => {
            lend::credit_delivery_from(words, a.hash(0), a.nth(4), a.perhaps_height(5), a.nth(7))
        }
        Letting::ExpirePending => lend::expire_pending(words, a.nth(0)),
        Letting::RequeueForRetry => {
            lend::requeue_for_retry(words, a.hash(0), a.perhaps_height(4), a.nth(6))
        }
        Letting::ReleasePending => lend::release_pending(words, a.hash(0), a.nth(4)),
        Letting::RetireBefore => lend::retire_before(words, a.height(0), a.nth(1)),
        Letting::RetainOwnedBy => lend::retain_owned_by(words, &flags_at(a)),
    }
}

// An answer's row, beside its report.
fn said<A: Copy>(fields: [u64; 32], l: Reported<A>) -> Said
    ensures { (result.fields ≡ fields) × (result.places ≡ l.places) × (result.gone ≡ l.gone) }
{
    Said {
        fields,
        places: l.places,
        gone: l.gone,
    }
}

fn receives(words: &mut [u64], a: Place) -> Said
    ensures { Performs (says_received (receiving a.entry.numbers.now a.entry.at)) words.old words.new result }
{
    let l = lend::mark_received_from(words, a.hash(0), a.nth(4), a.perhaps(5), a.nth(7));
    said(answers::received(l.answer), l)
}

fn rejects(words: &mut [u64], a: Place) -> Said
    ensures { Performs (says_rejected (rejecting a.entry.numbers.now a.entry.at)) words.old words.new result }
{
    let l = lend::reject_delivery(words, a.hash(0), a.perhaps(4), a.nth(6));
    said(answers::rejected(l.answer), l)
}

fn releases(words: &mut [u64], a: Place, kind: Letting) -> Said
    ensures { Performs (says_gone (letting a.entry.numbers.now a.entry.at kind)) words.old words.new result }
{
    let l = lets_go(words, a, kind);
    said(answers::gone(l.answer), l)
}

fn made(words: &mut [u64], a: Place, kind: Kind) -> Said
    ensures { Performs (told a.entry.numbers.now a.entry.at kind) words.old words.new result }
{
    match kind {
        Kind::Done(k) => answers::alone(answers::done(accepted(words, a, k))),
        Kind::Request => answers::alone(answers::truth(request(words, a))),
        Kind::Fetch => answers::alone(answers::fetch(owned_fetch(words, a))),
        Kind::Receive => receives(words, a),
        Kind::Reject => rejects(words, a),
        Kind::LetGo(k) => releases(words, a, k),
        Kind::Look => answers::alone(answers::blocked(looks(words, a))),
        Kind::Ask(k) => answers::alone(query(words, a, k)),
    }
}

// One recorded call, by its number and its arguments.
pub fn perform(words: &mut [u64], number: u64, a: Place) -> Said
    ensures { Performs (call_at a.entry.numbers.now a.entry.at number) words.old words.new result }
{
    made(words, a, Kind::from(number))
}

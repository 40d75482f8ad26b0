// What a call said, as a row of words: its answer's fields as crates/flat has them.
ghost use Rattle.std.specs.Prelude.{◌≡◌, ◌≤◌};
ghost use Rattle.model.specs.Says.{accepted_says, let_go_says, fetch_says, received_says, rejected_says, blocked_says, truth_says, number_says, pair_says, perhaps_says, perhaps_pair_says};
ghost use Rattle.flat.specs.Flat.{done_flat, number_flat, pair_flat, perhaps_flat, perhaps_pair_flat, gone_flat, received_flat, rejected_flat, blocked_flat};
ghost use Rattle.flat.specs.Plans.{plan_numbers};
ghost use Rattle.recorded.specs.Said.{row, alone, done_row, number_row, pair_row, perhaps_row, perhaps_pair_row, gone_row, received_row, rejected_row, plan_row, blocked_row};

use crate::Said;
use flat::FlatNumber;
use model::{Blocked, Fetch, Received, Refusal, Rejected, sizes};
use plans::PlanAnswer;

// Of a call without a report.
#[tactic(auto, unfolding(crate::specs::Said::alone))]
pub fn alone(fields: [u64; 32]) -> Said
    ensures { result ≡ alone fields }
{
    Said {
        fields,
        places: 0,
        gone: [0; sizes::REPORT_WORDS],
    }
}

// The fields of an answer, and 0 after them.
fn row<const K: usize>(fields: [u64; K]) -> [u64; 32]
    requires { K ≤ 32 }
    ensures { result ≡ row fields.entry }
{
    let mut row: [u64; 32] = [0; 32];
    row[..K].copy_from_slice(&fields);
    row
}

pub fn done(a: Result<(), Refusal>) -> [u64; 32]
    ensures { result ≡ done_row (done_flat (accepted_says a)) }
{
    row([flat::of_accepted(a)])
}

fn number_row(f: FlatNumber) -> [u64; 32]
    ensures { result ≡ number_row f }
{
    row([f.refused, f.value])
}

pub fn fetch(a: Result<Fetch, Refusal>) -> [u64; 32]
    ensures { result ≡ number_row (number_flat (fetch_says a)) }
{
    number_row(flat::of_fetch(a))
}

pub fn truth(a: Result<bool, Refusal>) -> [u64; 32]
    ensures { result ≡ number_row (number_flat (truth_says a)) }
{
    number_row(flat::of_truth(a))
}

pub fn number(a: Result<u64, Refusal>) -> [u64; 32]
    ensures { result ≡ number_row (number_flat (number_says a)) }
{
    number_row(flat::of_number(a))
}

pub fn pair(a: Result<(u64, u64), Refusal>) -> [u64; 32]
    ensures { result ≡ pair_row (pair_flat (pair_says a)) }
{
    let f = flat::of_pair(a);
    row([f.refused, f.first, f.second])
}

pub fn perhaps(a: Result<Option<u64>, Refusal>) -> [u64; 32]
    ensures { result ≡ perhaps_row (perhaps_flat (perhaps_says a)) }
{
    let f = flat::of_perhaps(a);
    row([f.refused, f.present, f.value])
}

pub fn perhaps_pair(a: Result<Option<(u64, u64)>, Refusal>) -> [u64; 32]
    ensures { result ≡ perhaps_pair_row (perhaps_pair_flat (perhaps_pair_says a)) }
{
    let f = flat::of_perhaps_pair(a);
    row([f.refused, f.present, f.first, f.second])
}

pub fn gone(a: Result<u64, Refusal>) -> [u64; 32]
    ensures { result ≡ gone_row (gone_flat (let_go_says a)) }
{
    let f = flat::of_let_go(a);
    row([f.refused, f.places])
}

pub fn received(a: Result<Received, Refusal>) -> [u64; 32]
    ensures { result ≡ received_row (received_flat (received_says a)) }
{
    let f = flat::of_received(a);
    row([f.refused, f.places, f.present, f.height])
}

pub fn rejected(a: Result<Rejected, Refusal>) -> [u64; 32]
    ensures { result ≡ rejected_row (rejected_flat (rejected_says a)) }
{
    let f = flat::of_rejected(a);
    row([f.refused, f.places, f.released])
}

// A plan's numbers.
pub fn plan(a: PlanAnswer) -> [u64; 32]
    ensures { result ≡ plan_row (plan_numbers a.plan a.hashes) }
{
    let f = flat::of_plan(a);
    row([f.refused, f.present, f.owner, f.count, f.end_height])
}

pub fn blocked(a: Result<Blocked, Refusal>) -> [u64; 32]
    ensures { result ≡ blocked_row (blocked_flat (blocked_says a)) }
{
    let f = flat::of_blocked(a);
    let h = f.hash;
    row([
        f.refused,
        f.decision,
        f.owner,
        f.height,
        f.suppressed,
        h.a,
        h.b,
        h.c,
        h.d,
    ])
}

// Answers as C structs. `refused` is 0, or the refusal's number, and then every other field is 0.
#![tactic(auto)]

ghost use Rattle.std.specs.Prelude.{◌≡◌};
ghost use Rattle.model.specs.Says.{accepted_says, let_go_says, fetch_says, received_says, rejected_says, blocked_says, next_request_says, truth_says, number_says, pair_says, perhaps_says, perhaps_pair_says};
ghost use Rattle.flat.specs.Flat.{done_flat, number_flat, pair_flat, perhaps_flat, perhaps_pair_flat, gone_flat, received_flat, rejected_flat, next_request_flat, blocked_flat};
ghost use Rattle.flat.specs.Plans.{plan_numbers};

use model::{Blocked, Fetch, Hash, NextRequest, Received, Refusal, Rejected};
use plans::PlanAnswer;

#[repr(C)]
#[derive(Clone, Copy, Default)]
pub struct FlatNumber {
    pub refused: u64,
    pub value: u64,
}

#[repr(C)]
#[derive(Clone, Copy, Default)]
pub struct FlatPair {
    pub refused: u64,
    pub first: u64,
    pub second: u64,
}

#[repr(C)]
#[derive(Clone, Copy, Default)]
pub struct FlatPerhaps {
    pub refused: u64,
    pub present: u64,
    pub value: u64,
}

#[repr(C)]
#[derive(Clone, Copy, Default)]
pub struct FlatPerhapsPair {
    pub refused: u64,
    pub present: u64,
    pub first: u64,
    pub second: u64,
}

#[repr(C)]
#[derive(Clone, Copy, Default)]
pub struct FlatGone {
    pub refused: u64,
    pub places: u64,
}

#[repr(C)]
#[derive(Clone, Copy, Default)]
pub struct FlatReceived {
    pub refused: u64,
    pub places: u64,
    pub present: u64,
    pub height: u64,
}

#[repr(C)]
#[derive(Clone, Copy, Default)]
pub struct FlatRejected {
    pub refused: u64,
    pub places: u64,
    pub released: u64,
}

#[repr(C)]
#[derive(Clone, Copy, Default)]
pub struct FlatNextRequest {
    pub refused: u64,
    pub places: u64,
    pub count: u64,
    pub next_height: u64,
}

#[repr(C)]
#[derive(Clone, Copy)]
pub struct FlatBlocked {
    pub refused: u64,
    pub decision: u64,
    pub owner: u64,
    pub height: u64,
    pub suppressed: u64,
    pub hash: Hash,
}

#[repr(C)]
#[derive(Clone, Copy)]
pub struct FlatPlan {
    pub refused: u64,
    pub present: u64,
    pub owner: u64,
    pub count: u64,
    pub end_height: u64,
    pub hashes: [u64; 32],
}

pub fn of_accepted(a: Result<(), Refusal>) -> u64
    ensures { result ≡ done_flat (accepted_says a) }
{
    match a {
        Err(r) => u64::from(r),
        Ok(()) => 0,
    }
}

fn valued(refused: u64, value: u64) -> FlatNumber
    ensures { result ≡ record { refused = refused; value = value } }
{
    FlatNumber { refused, value }
}

pub fn of_number(a: Result<u64, Refusal>) -> FlatNumber
    ensures { result ≡ number_flat (number_says a) }
{
    match a {
        Err(r) => valued(u64::from(r), 0),
        Ok(x) => valued(0, x),
    }
}

pub fn of_truth(a: Result<bool, Refusal>) -> FlatNumber
    ensures { result ≡ number_flat (truth_says a) }
{
    match a {
        Err(r) => valued(u64::from(r), 0),
        Ok(b) => valued(0, u64::from(b)),
    }
}

pub fn of_fetch(a: Result<Fetch, Refusal>) -> FlatNumber
    ensures { result ≡ number_flat (fetch_says a) }
{
    match a {
        Err(r) => valued(u64::from(r), 0),
        Ok(Fetch::Held) => valued(0, 0),
        Ok(Fetch::Staged) => valued(0, 1),
        Ok(Fetch::Asked) => valued(0, 2),
        Ok(Fetch::NoCapacity) => valued(0, 3),
    }
}

pub fn of_pair(a: Result<(u64, u64), Refusal>) -> FlatPair
    ensures { result ≡ pair_flat (pair_says a) }
{
    match a {
        Err(r) => FlatPair {
            refused: u64::from(r),
            ..FlatPair::default()
        },
        Ok((first, second)) => FlatPair {
            first,
            second,
            ..FlatPair::default()
        },
    }
}

pub fn of_perhaps(a: Result<Option<u64>, Refusal>) -> FlatPerhaps
    ensures { result ≡ perhaps_flat (perhaps_says a) }
{
    match a {
        Err(r) => FlatPerhaps {
            refused: u64::from(r),
            ..FlatPerhaps::default()
        },
        Ok(None) => FlatPerhaps::default(),
        Ok(Some(value)) => FlatPerhaps {
            present: 1,
            value,
            ..FlatPerhaps::default()
        },
    }
}

pub fn of_perhaps_pair(a: Result<Option<(u64, u64)>, Refusal>) -> FlatPerhapsPair
    ensures { result ≡ perhaps_pair_flat (perhaps_pair_says a) }
{
    match a {
        Err(r) => FlatPerhapsPair {
            refused: u64::from(r),
            ..FlatPerhapsPair::default()
        },
        Ok(None) => FlatPerhapsPair::default(),
        Ok(Some((first, second))) => FlatPerhapsPair {
            present: 1,
            first,
            second,
            ..FlatPerhapsPair::default()
        },
    }
}

pub fn of_let_go(a: Result<u64, Refusal>) -> FlatGone
    ensures { result ≡ gone_flat (let_go_says a) }
{
    match a {
        Err(r) => FlatGone {
            refused: u64::from(r),
            ..FlatGone::default()
        },
        Ok(places) => FlatGone {
            places,
            ..FlatGone::default()
        },
    }
}

pub fn of_received(a: Result<Received, Refusal>) -> FlatReceived
    ensures { result ≡ received_flat (received_says a) }
{
    match a {
        Err(r) => FlatReceived {
            refused: u64::from(r),
            ..FlatReceived::default()
        },
        Ok(r) => FlatReceived {
            places: r.places,
            present: u64::from(r.height.is_some()),
            height: r.height.unwrap_or(0),
            ..FlatReceived::default()
        },
    }
}

pub fn of_rejected(a: Result<Rejected, Refusal>) -> FlatRejected
    ensures { result ≡ rejected_flat (rejected_says a) }
{
    match a {
        Err(r) => FlatRejected {
            refused: u64::from(r),
            ..FlatRejected::default()
        },
        Ok(Rejected::ReleasedPending(places)) => FlatRejected {
            places,
            released: 1,
            ..FlatRejected::default()
        },
        Ok(Rejected::DiscardedUnsolicited) => FlatRejected::default(),
    }
}

pub fn of_next_request(a: Result<NextRequest, Refusal>) -> FlatNextRequest
    ensures { result ≡ next_request_flat (next_request_says a) }
{
    match a {
        Err(r) => FlatNextRequest {
            refused: u64::from(r),
            ..FlatNextRequest::default()
        },
        Ok(n) => match n.request {
            None => FlatNextRequest {
                places: n.places,
                ..FlatNextRequest::default()
            },
            Some(r) => FlatNextRequest {
                places: n.places,
                count: r.count,
                next_height: r.next_height,
                ..FlatNextRequest::default()
            },
        },
    }
}

fn decided(refused: u64, decision: u64, owner: u64) -> FlatBlocked
    ensures { result ≡ record { refused = refused; decision = decision; owner = owner; height = 0; suppressed = 0; hash = record { a = 0; b = 0; c = 0; d = 0 } } }
{
    let none = Hash {
        a: 0,
        b: 0,
        c: 0,
        d: 0,
    };
    FlatBlocked {
        refused,
        decision,
        owner,
        height: 0,
        suppressed: 0,
        hash: none,
    }
}

pub fn of_blocked(a: Result<Blocked, Refusal>) -> FlatBlocked
    ensures { result ≡ blocked_flat (blocked_says a) }
{
    match a {
        Err(r) => decided(u64::from(r), 0, 0),
        Ok(Blocked::NoDecision) => decided(0, 0, 0),
        Ok(Blocked::BlameStaller(owner)) => decided(0, 1, owner),
        Ok(Blocked::BlamePendingTimeout(owner)) => decided(0, 2, owner),
        Ok(Blocked::EvictStaged(height, hash, suppressed)) => FlatBlocked {
            height,
            suppressed,
            hash,
            ..decided(0, 3, 0)
        },
        Ok(Blocked::HedgeColdFront(owner, hash)) => FlatBlocked {
            hash,
            ..decided(0, 4, owner)
        },
    }
}

pub fn of_plan(a: PlanAnswer) -> FlatPlan
    ensures { result ≡ plan_numbers a.plan a.hashes }
{
    let hashes = a.hashes;
    let none = FlatPlan {
        refused: 0,
        present: 0,
        owner: 0,
        count: 0,
        end_height: 0,
        hashes,
    };
    match a.plan {
        Err(r) => FlatPlan {
            refused: u64::from(r),
            ..none
        },
        Ok(None) => none,
        Ok(Some(p)) => FlatPlan {
            present: 1,
            owner: p.owner,
            count: p.count,
            end_height: p.end_height,
            ..none
        },
    }
}

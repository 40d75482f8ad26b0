// SPECIFICATION 7.4 to 7.7, 7.17: the rules of deliveries, rejections and fan-out, by value.
#![tactic(auto)]

ghost use Rattle.std.specs.Prelude.{◌≡◌, true, false, cond, not, ◌&&◌, suc, ◌≤◌, eqb, ltb, leb};
ghost use Rattle.model.specs.Numbers.{max_estimate, max_body};
ghost use Rattle.model.specs.Hash.{same};
ghost use Rattle.model.specs.Calls.{unless_observed, unless_stalled, unless_front, next_mean, is_young};

use model::{ColdFront, Entry, Hash, Observation, PrefixProbe, StallEpisode, limits};

// Whether a hash asked of an owner is this one, asked of this source.
fn is_ask(x: Hash, owner: u64, h: Hash, source: u64) -> bool
    ensures { result ≡ (same x h && eqb owner source) }
{
    hash::equal(x, h) & (owner == source)
}

// `unless_observed`: the observation of this hash and this owner ends.
pub fn unless_observed(h: Hash, source: u64, o: Observation) -> Observation
    ensures { result ≡ unless_observed h source o }
{
    match o {
        Observation::Unarmed => o,
        Observation::Armed(owner, x) => {
            if is_ask(x, owner, h, source) {
                return Observation::Unarmed;
            }
            o
        }
        Observation::Swept(owner, x) => {
            if is_ask(x, owner, h, source) {
                return Observation::Unarmed;
            }
            o
        }
    }
}

// `unless_stalled`: an episode of this owner or of this front ends.
pub fn unless_stalled(h: Hash, source: u64, s: Option<StallEpisode>) -> Option<StallEpisode>
    ensures { result ≡ unless_stalled h source s }
{
    match s {
        None => None,
        Some(x) => {
            if x.owner == source {
                return None;
            }
            if hash::equal(x.front, h) {
                return None;
            }
            s
        }
    }
}

// `unless_front`: a cold front of this hash ends by its owner's rejection, and a race by its alternate's too.
pub fn unless_front(h: Hash, source: u64, x: ColdFront) -> ColdFront
    ensures { result ≡ unless_front h source x }
{
    match x {
        ColdFront::Idle => x,
        ColdFront::Waiting(owner, g, _) => {
            if is_ask(g, owner, h, source) {
                return ColdFront::Idle;
            }
            x
        }
        ColdFront::Racing(owner, alternate, g) => {
            if hash::equal(g, h) & ((source == owner) | (source == alternate)) {
                return ColdFront::Idle;
            }
            x
        }
    }
}

// `next_mean`: mean = max((7 × mean + bytes) / 8, 80)
fn next_mean(mean: u64, bytes: u64) -> u64
    requires { (mean ≤ max_estimate) × (bytes ≤ max_body) }
    ensures { result ≡ next_mean mean bytes }
{
    numbers::greater((mean * 7 + bytes) / 8, limits::MIN_ESTIMATE)
}

// The mean after a body, whether it was asked for (then `front` is its entry) or not: `next_mean`.
pub fn mean_after(front: Option<Entry>, mean: u64, bytes: u64) -> u64
    requires { (mean ≤ max_estimate) × (bytes ≤ max_body) }
    ensures { result ≡ next_mean mean bytes }
{
    next_mean(mean, bytes)
}

// `is_young`
fn is_young(p: Option<PrefixProbe>, initial: u64, clock: u64) -> bool
    ensures { result ≡ is_young p initial clock }
{
    p.is_some_and(|x| clock.saturating_sub(x.started) < initial)
}

// `engages` on what it reads: the least peers for fan-out, the first stall wait, whether it is engaged, the probe.
pub fn engages(
    least: u64,
    initial: u64,
    engaged: bool,
    p: Option<PrefixProbe>,
    n: u64,
    clock: u64,
) -> bool
    ensures { result ≡ cond (leb least n && not (is_young p initial clock)) true (cond (ltb (suc n) least) false engaged) }
{
    if least <= n {
        if is_young(p, initial, clock) {
            return engaged;
        }
        return true;
    }
    if n < least.saturating_sub(1) {
        return false;
    }
    engaged
}

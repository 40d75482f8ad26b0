// SPECIFICATION 6.2: the pace record, lent. Three thin functions alter it, each by a rule of `pace`; three more lend it to one of them, for callers that
// have it by value. These three are the one way in which the calls change the pace.
#![tactic(auto)]

ghost use Rattle.std.specs.Prelude.{◌≡◌, suc, ◌≤◌};
ghost use Rattle.model.specs.Numbers.{max_clock, max_duration, max_front_mean};
ghost use Rattle.model.specs.Pace.{front_recorded, wait_widened, pace_opened};

use model::{Pace, Settings};

// ---- the record lent

// `front_recorded`
pub fn record_front(p: &mut Pace, b: Settings, clock: u64)
    requires { (clock ≤ max_clock) × (p.old.mean ≤ suc max_front_mean) × (p.old.wait ≤ max_duration) }
    ensures { p.new ≡ front_recorded b clock p.old }
{
    *p = pace::front_recorded(b, clock, *p);
}

// `wait_widened`
pub fn widen_wait(p: &mut Pace, b: Settings)
    requires { (p.old.mean ≤ suc max_front_mean) × (p.old.wait ≤ max_duration) × (b.stall_timeout_max ≤ max_duration) }
    ensures { p.new ≡ wait_widened b p.old }
{
    *p = pace::wait_widened(b, *p);
}

// `pace_opened`
pub fn set_at_opening(p: &mut Pace, b: Settings)
    ensures { p.new ≡ pace_opened b }
{
    *p = pace::pace_opened(b);
}

// ---- the record by value: each holds it in a local, and lends that

// `front_recorded`
pub fn lend_at_front(p: Pace, b: Settings, clock: u64) -> Pace
    requires { (clock ≤ max_clock) × (p.mean ≤ suc max_front_mean) × (p.wait ≤ max_duration) }
    ensures { result ≡ front_recorded b clock p }
{
    let mut recorded = p;
    record_front(&mut recorded, b, clock);
    recorded
}

// `wait_widened`
pub fn lend_at_blame(p: Pace, b: Settings) -> Pace
    requires { (p.mean ≤ suc max_front_mean) × (p.wait ≤ max_duration) × (b.stall_timeout_max ≤ max_duration) }
    ensures { result ≡ wait_widened b p }
{
    let mut widened = p;
    widen_wait(&mut widened, b);
    widened
}

// `pace_opened`
pub fn lend_at_opening(p: Pace, b: Settings) -> Pace
    ensures { result ≡ pace_opened b }
{
    let mut opened = p;
    set_at_opening(&mut opened, b);
    opened
}

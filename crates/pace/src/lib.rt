// SPECIFICATION 6.2: the rules of the pace, by value. What they ask are the ranges in which every window keeps its pace.
#![tactic(auto)]

ghost use Rattle.std.specs.Prelude.{◌≡◌, suc, ◌≤◌};
ghost use Rattle.model.specs.Numbers.{max_clock, max_duration, max_front_mean};
ghost use Rattle.model.specs.Pace.{sample_ms, nearer, front_mean_by, front_mean, twice_ns, decay_floor, stall_decay_floor, decayed, front_recorded};
ghost use Rattle.model.specs.Pace.{effective_stall_timeout, wait_widened, pace_opened};

use model::{Pace, Settings};

// EWMA_MIN_SAMPLE_MS
const MIN_SAMPLE: u64 = 50;

const NS_PER_MS: u64 = 1_000_000;

// of the stall wait, what is left of it after a front
const DECAY_PERCENT: u64 = 85;

// `sample_ms`: whole ms since the stored last advance.
fn sample_ms(now: u64, advance: u64) -> u64
    requires { now ≤ max_clock }
    ensures { result ≡ sample_ms now advance }
{
    numbers::age(now, advance) / NS_PER_MS
}

// `nearer`: a quarter of the difference, rounded down.
fn nearer(m: u64, sample: u64) -> u64
    ensures { result ≡ nearer m sample }
{
    if m <= sample {
        return m + (sample - m) / 4;
    }
    m - (m - sample) / 4
}

// `front_mean_by`: the stored mean after a sample. One that is too short leaves it, the first is the mean.
fn front_mean_by(mean: u64, sample: u64) -> u64
    requires { (mean ≤ suc max_front_mean) × (sample ≤ max_front_mean) }
    ensures { result ≡ front_mean_by mean sample }
{
    if sample < MIN_SAMPLE {
        return mean;
    }
    if mean == 0 {
        return sample + 1;
    }
    nearer(mean - 1, sample) + 1
}

// `front_mean`: without a last advance there is no sample.
fn front_mean(now: u64, advance: u64, mean: u64) -> u64
    requires { (now ≤ max_clock) × (mean ≤ suc max_front_mean) }
    ensures { result ≡ front_mean now advance mean }
{
    if advance == 0 {
        return mean;
    }
    front_mean_by(mean, sample_ms(now, advance))
}

// `twice_ns`: twice the front mean in nanoseconds, 0 without one.
fn twice_ns(mean: u64) -> u64
    requires { mean ≤ suc max_front_mean }
    ensures { result ≡ twice_ns mean }
{
    if mean == 0 {
        return 0;
    }
    (mean - 1) * 2 * NS_PER_MS
}

// `decay_floor`
fn decay_floor(initial: u64, most: u64, mean: u64) -> u64
    requires { mean ≤ suc max_front_mean }
    ensures { result ≡ decay_floor initial most mean }
{
    numbers::lesser(numbers::greater(twice_ns(mean), initial), most)
}

// `stall_decay_floor`
pub fn stall_decay_floor(b: Settings, p: Pace) -> u64
    requires { p.mean ≤ suc max_front_mean }
    ensures { result ≡ stall_decay_floor b p }
{
    decay_floor(b.stall_timeout_initial, b.stall_timeout_max, p.mean)
}

// `decayed`: the stall wait after a front, no lower than the floor.
fn decayed(wait: u64, floor: u64) -> u64
    requires { wait ≤ max_duration }
    ensures { result ≡ decayed wait floor }
{
    numbers::greater(wait * DECAY_PERCENT / 100, floor)
}

// `front_recorded`, what `record_delivery_progress` does to the pace at a front: the mean, then the wait by the new mean's floor.
pub fn front_recorded(b: Settings, now: u64, p: Pace) -> Pace
    requires { (now ≤ max_clock) × (p.mean ≤ suc max_front_mean) × (p.wait ≤ max_duration) }
    ensures { result ≡ front_recorded b now p }
{
    let mean = front_mean(now, p.advance, p.mean);
    let floor = decay_floor(b.stall_timeout_initial, b.stall_timeout_max, mean);
    let wait = decayed(p.wait, floor);
    Pace {
        mean,
        advance: now + 1,
        wait,
    }
}

// `effective_stall_timeout`: the wait in force.
pub fn effective_stall_timeout(b: Settings, p: Pace) -> u64
    requires { p.mean ≤ suc max_front_mean }
    ensures { result ≡ effective_stall_timeout b p }
{
    numbers::greater(p.wait, stall_decay_floor(b, p))
}

// `wait_widened`: after a blame the wait in force is doubled, up to the most.
pub fn wait_widened(b: Settings, p: Pace) -> Pace
    requires { (p.mean ≤ suc max_front_mean) × (p.wait ≤ max_duration) × (b.stall_timeout_max ≤ max_duration) }
    ensures { result ≡ wait_widened b p }
{
    let force = effective_stall_timeout(b, p);
    let wait = numbers::lesser(force * 2, b.stall_timeout_max);
    Pace {
        mean: p.mean,
        advance: p.advance,
        wait,
    }
}

// `pace_opened`
pub fn pace_opened(b: Settings) -> Pace
    ensures { result ≡ pace_opened b }
{
    Pace {
        mean: 0,
        advance: 0,
        wait: b.stall_timeout_initial,
    }
}

// Which records go: a mark for each, 0 where it stays, else the number of its reason, as the definitions' `sweep_reason` and `lost_reason` are
// numbers and a report's word holds one; eight columns are kept by such marks without a branch. Read-only, one loop over the records for each rule; the
// owner timeout is worked out once and handed in. `count` is how many places are live. Contracts speak of the window that the words say.
#![tactic(auto)]

ghost use Rattle.std.specs.Prelude.{◌≡◌, cond, not, ◌&&◌, map, ◌+◌, ◌-◌, ◌<◌, ◌≤◌, suc, length, take, eqb, ltb, leb};
ghost use Rattle.model.specs.Numbers.{max_clock, max_estimate};
ghost use Rattle.model.specs.Time.{expired, effective_owner_timeout, active};
ghost use Rattle.model.specs.LettingGo.{sweep_reason, lost_reason, flagged, forecast_blocks, forecast_bytes};
ghost use Rattle.model.specs.Layout.{window_of};
ghost use Rattle.laws.specs.Batches.{retire_reason};
ghost use Rattle.laws.specs.Pending.{Ranged};

use model::{PerSeat, Reason, Words, at, sizes};

// What a sweep would take of expired owners: how many entries, and their bytes.
#[derive(Clone, Copy)]
pub struct Forecast {
    pub blocks: u64,
    pub bytes: u64,
}

// ---- the sweep

// `skipped`: the age is at least the stall wait, and the last body is strictly later than the request.
fn passed_over(clock: u64, wait: u64, time: u64, body: u64) -> bool
    requires { time ≤ max_clock }
    ensures { result ≡ (leb wait (clock - time) && ltb (suc time) body) }
{
    let age = clock.saturating_sub(time);
    (wait <= age) & (time + 1 < body)
}

// A time out goes before what is passed over.
fn sweep_mark(clock: u64, timeout: u64, wait: u64, time: u64, start: u64, body: u64) -> u64
    requires { (clock ≤ max_clock) × (time ≤ max_clock) }
    ensures { result ≡ cond (expired clock timeout start) 6 (cond (leb wait (clock - time) && ltb (suc time) body) 7 0) }
{
    if time::expired(clock, timeout, start) {
        return u64::from(Reason::OwnerTimeOut);
    }
    if passed_over(clock, wait, time, body) {
        return u64::from(Reason::PassedOver);
    }
    0
}

// `sweep_reason`
pub fn sweep_marks(
    words: &Words,
    count: usize,
    clock: u64,
    timeout: u64,
    wait: u64,
) -> [u64; sizes::PLACES]
    requires { (count ≡ length (window_of words.now).queue.pending) × (wait ≡ (window_of words.now).pace.wait) × Ranged (window_of words.now) × (clock ≤ max_clock) }
    ensures { take count result ≡ map (sweep_reason clock timeout (window_of words.now)) (window_of words.now).queue.pending }
{
    let mut marks = [0; sizes::PLACES];
    for i in 0..count {
        let o = words[i + at::OWNERS];
        let owner = o as usize;
        let start = words[at::STARTS + owner];
        let body = words[at::BODIES + owner];
        marks[i] = sweep_mark(clock, timeout, wait, words[i + at::TIMES], start, body);
    }
    marks
}

// ---- retirement

fn retire_mark(height: u64, limit: u64) -> u64
    ensures { result ≡ cond (ltb height limit) 5 0 }
{
    if height < limit {
        return u64::from(Reason::Retired);
    }
    0
}

// `retire_reason`
pub fn retire_marks(words: &Words, count: usize, height: u64) -> [u64; sizes::PLACES]
    requires { count ≡ length (window_of words.now).queue.pending }
    ensures { take count result ≡ map (retire_reason height) (window_of words.now).queue.pending }
{
    let mut marks = [0; sizes::PLACES];
    for i in 0..count {
        marks[i] = retire_mark(words[i + at::HEIGHTS], height);
    }
    marks
}

// ---- whole seats

fn lost_mark(flag: u64, reason: u64) -> u64
    ensures { result ≡ cond (not (eqb flag 0)) 0 reason }
{
    if flag == 0 {
        return reason;
    }
    0
}

// `lost_reason` by flags, nonzero for a seat that is kept.
pub fn lost_marks(words: &Words, count: usize, flags: &PerSeat, reason: u64) -> [u64; sizes::PLACES]
    requires { (count ≡ length (window_of words.now).queue.pending) × Ranged (window_of words.now) }
    ensures { take count result ≡ map (lost_reason (flagged flags.now) reason) (window_of words.now).queue.pending }
{
    let mut marks = [0; sizes::PLACES];
    for i in 0..count {
        let o = words[i + at::OWNERS];
        let owner = o as usize;
        marks[i] = lost_mark(flags[owner], reason);
    }
    marks
}

// ---- the forecast: expired owners only

fn counted(f: Forecast, expired: bool, estimate: u64) -> Forecast
    requires { (f.blocks < 256) × ((f.bytes ≤ 1099511627776) × (estimate ≤ max_estimate)) }
    ensures { (result.blocks ≡ cond expired (suc f.blocks) f.blocks) × (result.bytes ≡ cond expired (estimate + f.bytes) f.bytes) }
{
    if expired {
        let blocks = f.blocks + 1;
        let bytes = estimate + f.bytes;
        return Forecast { blocks, bytes };
    }
    f
}

// `forecast_blocks` and `forecast_bytes`
pub fn forecast_of(words: &Words, count: usize, clock: u64, timeout: u64) -> Forecast
    requires { (count ≡ length (window_of words.now).queue.pending) × (timeout ≡ effective_owner_timeout (active (window_of words.now)) (window_of words.now)) × Ranged (window_of words.now) × (clock ≤ max_clock) }
    ensures { (result.blocks ≡ forecast_blocks clock (window_of words.now)) × (result.bytes ≡ forecast_bytes clock (window_of words.now)) }
{
    let limit = time::expiry_limit(clock, timeout);
    let mut f = Forecast {
        blocks: 0,
        bytes: 0,
    };
    for i in (0..count).rev() {
        let o = words[i + at::OWNERS];
        let owner = o as usize;
        let is = time::reached(limit, words[at::STARTS + owner]);
        f = counted(f, is, words[i + at::ESTIMATES]);
    }
    f
}

// SPECIFICATION 6.1: owner timeout and expiry.
#![tactic(auto)]

ghost use Rattle.std.specs.Prelude.{◌≡◌, suc, ◌≤◌};
ghost use Rattle.model.specs.Numbers.{max_clock, max_duration, max_seat};
ghost use Rattle.model.specs.Time.{owner_timeout, expired};
ghost use Rattle.time.specs.Limit.{expiry_limit, Reached};

// BLOCK_DOWNLOAD_TIMEOUT_BASE. BLOCK_DOWNLOAD_TIMEOUT_PER_PEER is 1, so the other seats count as they are.
const TIMEOUT_BASE: u64 = 2;

// `owner_timeout`. At most 256 seats are active, so the product fits.
pub fn owner_timeout(spacing: u64, active: u64) -> u64
    requires { (spacing ≤ max_duration) × (active ≤ suc max_seat) }
    ensures { result ≡ owner_timeout spacing active }
{
    let others = active.saturating_sub(1);
    spacing * (TIMEOUT_BASE + others) / 2
}

// `expired`: `start` is a seat's stored start, 0 where it has none.
pub fn expired(now: u64, timeout: u64, start: u64) -> bool
    requires { now ≤ max_clock }
    ensures { result ≡ expired now timeout start }
{
    if start == 0 {
        return false;
    }
    timeout <= numbers::age(now, start)
}

// `expiry_limit`: the latest stored start that is expired. A scan over many starts works it out once, and asks `reached` of each.
pub fn expiry_limit(now: u64, timeout: u64) -> u64
    requires { now ≤ max_clock }
    ensures { result ≡ expiry_limit now timeout }
{
    if timeout == 0 {
        return u64::MAX;
    }
    (now + 1).saturating_sub(timeout)
}

// `expired`, by the limit of a moment and a timeout.
pub fn reached(limit: u64, start: u64) -> bool
    ensures { Reached limit start result }
{
    (start != 0) & (start <= limit)
}

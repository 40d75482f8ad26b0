// The model's `Numbers` in code: what every layer above computes with. `-` of the definitions is `saturating_sub`.
#![tactic(auto)]

ghost use Rattle.std.specs.Prelude.{◌≡◌, ◌≤◌, ◌<◌};
ghost use Rattle.model.specs.Numbers.{lesser, greater, div_ceil, present, age, max_clock, max_height, next_height};

use model::limits;

// `lesser`
#[tactic(auto, using(laws::specs::Numbers::min_is))]
pub fn lesser(a: u64, b: u64) -> u64
    ensures { result ≡ lesser a b }
{
    a.min(b)
}

// `greater`
#[tactic(auto, using(laws::specs::Numbers::max_is))]
pub fn greater(a: u64, b: u64) -> u64
    ensures { result ≡ greater a b }
{
    a.max(b)
}

// `div_ceil`
#[tactic(auto, using(laws::specs::Numbers::div_ceil_is))]
pub fn div_ceil(a: u64, b: u64) -> u64
    requires { 0 < b }
    ensures { result ≡ div_ceil a b }
{
    a.div_ceil(b)
}

// `next_height`, the Rust's `height.saturating_add(1)`.
#[tactic(auto, unfolding(model::specs::Numbers::next_height))]
pub fn next_height(h: u64) -> u64
    requires { h ≤ max_height }
    ensures { result ≡ next_height h }
{
    lesser(h + 1, limits::MAX_HEIGHT)
}

// `present`: whether a stored time is there.
#[tactic(auto, unfolding(model::specs::Numbers::present))]
pub fn present(stored: u64) -> bool
    ensures { result ≡ present stored }
{
    stored != 0
}

// `age`, the Rust's `now.duration_since(t)` of a stored t + 1.
#[tactic(auto, using(laws::specs::Numbers::age_is))]
pub fn age(now: u64, stored: u64) -> u64
    requires { now ≤ max_clock }
    ensures { result ≡ age now stored }
{
    (now + 1).saturating_sub(stored)
}

// Owner timeout and expiry in words that hold a window, and the lowest entry of an expired owner. The timeout is worked out once a scan,
// and with it the latest start that is expired.
#![tactic(auto)]

ghost use Rattle.std.specs.Prelude.{◌≡◌, ◌+◌, ◌<◌, ◌≤◌, get_or, take, drop};
ghost use Rattle.model.specs.Numbers.{max_clock, max_duration};
ghost use Rattle.model.specs.Lists.{select};
ghost use Rattle.model.specs.Records.{lowest};
ghost use Rattle.model.specs.Time.{active, effective_owner_timeout, owner_download_expired};
ghost use Rattle.model.specs.Observation.{lowest_expired};
ghost use Rattle.model.specs.Layout.{decode, entry_at, window_of};
ghost use Rattle.laws.specs.Sound.{Sound};
ghost use Rattle.laws.specs.Whole.{Whole};
ghost use Rattle.records.specs.Places.{front_at};
ghost use Rattle.expiry.specs.Late.{late, LateBy, Seated};

use model::{Entry, Words, at};

// `effective_owner_timeout` by the window's own active count.
pub fn owner_timeout(words: &Words) -> u64
    requires { (window_of words.now).settings.block_spacing ≤ max_duration }
    ensures { result ≡ effective_owner_timeout (active (window_of words.now)) (window_of words.now) }
{
    let b = state::get_settings(words);
    let active = state::active_peers(words);
    time::owner_timeout(b.block_spacing, active)
}

// `owner_download_expired`
pub fn owner_expired(words: &Words, owner: usize, clock: u64) -> bool
    requires { ((window_of words.now).settings.block_spacing ≤ max_duration) × (owner < 256) × (clock ≤ max_clock) }
    ensures { result ≡ owner_download_expired owner (active (window_of words.now)) clock (window_of words.now) }
{
    let timeout = owner_timeout(words);
    let start = state::start_of(words, owner);
    time::expired(clock, timeout, start)
}

// `late`, by the limit of a moment and a timeout: whether the owner of the record at i is expired.
fn is_late(words: &Words, i: usize, limit: u64) -> bool
    requires { (i < 256) × (get_or words.now (i + 1024) 0 < 256) }
    ensures { LateBy limit (decode words.now).starts (entry_at (drop i words.now)) result }
{
    let owner = words[i + at::OWNERS] as usize;
    let start = seats::start_of(words, owner);
    time::reached(limit, start)
}

// The place of the lowest record of an expired owner, the first among equals; `count` where there is none. From the last record to the first.
fn lowest_late(words: &Words, count: usize, timeout: u64, clock: u64) -> usize
    requires { (count ≤ 256) × (clock ≤ max_clock) × Seated count words.now }
    ensures { lowest (select (late clock timeout (decode words.now).starts) (take count (decode words.now).entries)) ≡ front_at count result (decode words.now).entries }
{
    let limit = time::expiry_limit(clock, timeout);
    let mut best = count;
    let mut low = u64::MAX;
    for i in (0..count).rev() {
        let g = words[i + at::HEIGHTS];
        if g <= low {
            if is_late(words, i, limit) {
                best = i;
                low = g;
            }
        }
    }
    best
}

// `lowest_expired`
#[tactic(auto, using(crate::specs::Late::expired_is, state_queue::specs::Steps::entry_is), unfolding(records::specs::Places::front_at))]
pub fn lowest_expired(words: &Words, clock: u64) -> Option<Entry>
    requires { Whole words.now × Sound clock (window_of words.now) }
    ensures { result ≡ lowest_expired clock (window_of words.now) }
{
    let n = state_queue::pending_count(words);
    let timeout = owner_timeout(words);
    let at = lowest_late(words, n, timeout, clock);
    (at < n).then(|| state_queue::entry_at(words, at))
}

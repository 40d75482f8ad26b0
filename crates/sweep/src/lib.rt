// SPECIFICATION 6.7, 7.8, 7.11, without refusals and lent report: the sweep, retirement and the forecast. What goes is written, nine words each, in
// `gone`; the answer is how many. The last clock is not set here: the public call does that last.
#![tactic(auto)]

ghost use Rattle.std.specs.Prelude.{◌≡◌, true, map, ◌<◌, ◌≤◌, length, take};
ghost use Rattle.model.specs.Time.{effective_owner_timeout, active, peer_has_expired_pending};
ghost use Rattle.model.specs.LettingGo.{retire_before, sweep_reason, marked_swept, expire_pending, forecast_blocks, forecast_bytes};
ghost use Rattle.model.specs.Layout.{window_of, settings_ok};
ghost use Rattle.laws.specs.Sound.{Sound};
ghost use Rattle.laws.specs.Whole.{Whole, Holds};
ghost use Rattle.report_words.specs.Report.{releases_of};

use marks::Forecast;
use model::{Gone, Observation, Words, sizes};

// `effective_owner_timeout`, of the window's own active count.
pub fn timeout_of(words: &Words) -> u64
    requires { settings_ok (window_of words.now).settings ≡ true }
    ensures { result ≡ effective_owner_timeout (active (window_of words.now)) (window_of words.now) }
{
    let s = state::get_settings(words);
    let n = state::active_peers(words);
    time::owner_timeout(s.block_spacing, n)
}

// ---- the sweep

fn swept_marks(words: &Words, clock: u64) -> [u64; sizes::PLACES]
    requires { Whole words.now × Sound clock (window_of words.now) }
    ensures { take (length (window_of words.now).queue.pending) result ≡ map (sweep_reason clock (effective_owner_timeout (active (window_of words.now)) (window_of words.now)) (window_of words.now)) (window_of words.now).queue.pending }
{
    let timeout = timeout_of(words);
    let pace = state::get_pace(words);
    let count = state_queue::pending_count(words);
    marks::sweep_marks(words, count, clock, timeout, pace.wait)
}

// `marked_swept`, over the first `n` releases.
fn marked_swept(gone: &Gone, n: usize, o: Observation) -> Observation
    requires { n ≤ 256 }
    ensures { result ≡ marked_swept (releases_of n gone.now) o }
{
    match o {
        Observation::Unarmed => o,
        Observation::Armed(owner, h) => {
            if report_words::is_among(gone, n, owner, h) {
                return Observation::Swept(owner, h);
            }
            o
        }
        Observation::Swept(_, _) => o,
    }
}

// `expire_pending`
pub fn expire_pending(words: &mut Words, gone: &mut Gone, clock: u64) -> usize
    requires { Whole words.old × (Sound clock (window_of words.old)) }
    ensures { (result ≤ 256)
        × (Holds (expire_pending clock (window_of words.old)).window words.new)
        × (releases_of result gone.new ≡ (expire_pending clock (window_of words.old)).gone) }
{
    let marks = swept_marks(words, clock);
    let n = batch::let_go(words, gone, &marks, clock);
    let o = state::get_observation(words);
    let m = marked_swept(gone, n, o);
    state::set_observation(words, m);
    n
}

// ---- retirement

// `retire_before`
pub fn retire_before(words: &mut Words, gone: &mut Gone, height: u64, clock: u64) -> usize
    requires { Whole words.old × (Sound clock (window_of words.old)) }
    ensures { (result ≤ 256)
        × (Holds (retire_before height clock (window_of words.old)).window words.new)
        × (releases_of result gone.new ≡ (retire_before height clock (window_of words.old)).gone) }
{
    let count = state_queue::pending_count(words);
    let marks = marks::retire_marks(words, count, height);
    batch::let_go(words, gone, &marks, clock)
}

// ---- the forecast

// `forecast_blocks` and `forecast_bytes`
pub fn expired_pending_capacity(words: &Words, clock: u64) -> Forecast
    requires { Whole words.now × Sound clock (window_of words.now) }
    ensures { (result.blocks ≡ forecast_blocks clock (window_of words.now)) × (result.bytes ≡ forecast_bytes clock (window_of words.now)) }
{
    let timeout = timeout_of(words);
    let count = state_queue::pending_count(words);
    marks::forecast_of(words, count, clock, timeout)
}

// `peer_has_expired_pending`
pub fn peer_has_expired_pending(words: &Words, seat: usize, clock: u64) -> bool
    requires { Whole words.now × (Sound clock (window_of words.now) × (seat < 256)) }
    ensures { result ≡ peer_has_expired_pending seat clock (window_of words.now) }
{
    let timeout = timeout_of(words);
    let start = state::start_of(words, seat);
    time::expired(clock, timeout, start)
}

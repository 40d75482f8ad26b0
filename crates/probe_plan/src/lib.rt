// SPECIFICATION 6.8: the plan of a prefix probe, of words that hold a window.
#![tactic(auto)]

ghost use Rattle.std.specs.Prelude.{◌≡◌, not, ◌≤◌, ◌<◌, length, eqb};
ghost use Rattle.model.specs.Numbers.{min_estimate};
ghost use Rattle.model.specs.Lists.{any};
ghost use Rattle.model.specs.Layout.{window_of};
ghost use Rattle.model.specs.Races.{plan_limit, probe_offered};
ghost use Rattle.laws.specs.Whole.{Whole};
ghost use Rattle.laws.specs.Pending.{Ranged};
ghost use Rattle.probe_plan.specs.Plans.{header_by, Plans, busy, passed};

use model::{Hash, Plan, PrefixProbe, Words, limits, sizes};

// A plan's owner and walk; without a plan n is 0.
#[derive(Clone, Copy)]
pub struct Planning {
    pub owner: u64,
    pub n: usize,
    pub places: [usize; sizes::PROBED],
    pub end: u64,
}

// A peer is preferred, a probe runs, or the fan-out is engaged.
fn is_busy(words: &Words) -> bool
    ensures { result ≡ busy (window_of words.now) }
{
    let preferred = state::get_preferred(words);
    if preferred.is_some() {
        return true;
    }
    let probe = state_races::get_probe(words);
    if probe.is_some() {
        return true;
    }
    state::get_fanout(words).engaged
}

// Some entry has another owner.
fn has_another(words: &Words, owner: u64) -> bool
    requires { Whole words.now }
    ensures { result ≡ any (λ e. not (eqb e.owner owner)) (window_of words.now).queue.pending }
{
    let n = state_queue::pending_count(words);
    for i in 0..n {
        let e = state_queue::entry_at(words, i);
        if e.owner != owner {
            return true;
        }
    }
    false
}

// The owner was raced already, or is not the only one.
fn is_passed(words: &Words, owner: u64) -> bool
    requires { Whole words.now }
    ensures { result ≡ passed (window_of words.now) owner }
{
    let attempted = state::get_attempted(words);
    if attempted == Some(owner) {
        return true;
    }
    has_another(words, owner)
}

// `plan_limit`
fn plan_limit(mean: u64) -> u64
    requires { min_estimate ≤ mean }
    ensures { (result ≡ plan_limit mean) × (result ≤ 8) }
{
    numbers::lesser(
        limits::PREFIX_PROBE_ESTIMATED_BYTES / mean,
        limits::PREFIX_PROBE_BLOCK_LIMIT,
    )
}

fn no_planning() -> Planning
    ensures { (result.n ≡ 0) × (length result.places ≡ 8) }
{
    Planning {
        owner: 0,
        n: 0,
        places: [0; sizes::PROBED],
        end: 0,
    }
}

// `prefix_probe_plan`, with the places of its entries.
pub fn make_plan(words: &Words) -> Planning
    requires { Whole words.now × (Ranged (window_of words.now) × (min_estimate ≤ (window_of words.now).mean)) }
    ensures { Plans result (window_of words.now) }
{
    if is_busy(words) {
        return no_planning();
    }
    let lowest = state_queue::lowest(words);
    let Some(front) = lowest else {
        return no_planning();
    };
    if is_passed(words, front.owner) {
        return no_planning();
    }
    let mean = state::get_mean(words);
    let limit = plan_limit(mean);
    if limit < limits::PREFIX_PROBE_WIN_BLOCKS {
        return no_planning();
    }
    let most = limit as usize;
    let w = prefix_probe::walk_up(words, most, front.height);
    let places = w.places;
    Planning {
        owner: front.owner,
        n: w.n,
        places,
        end: w.end,
    }
}

// `header_by`: owner, number of hashes, end height.
pub fn header_of(p: Planning) -> Option<Plan>
    ensures { result ≡ header_by p }
{
    if p.n < sizes::WIN_BLOCKS {
        return None;
    }
    let end = p.end.saturating_sub(1);
    Some(Plan {
        owner: p.owner,
        count: p.n as u64,
        end_height: end,
    })
}

// `probe_offered`
#[tactic(auto, unfolding(model::specs::Races::probe_offered))]
pub fn probe_offered(words: &Words, source: u64, h: Hash) -> bool
    requires { Whole words.now × (source < 256) }
    ensures { result ≡ probe_offered source h (window_of words.now) }
{
    let probe = state_races::get_probe(words);
    if probe.is_none() {
        return false;
    }
    if !state_races::is_planned(words, h) {
        return false;
    }
    let s = source as usize;
    let racer = state::racer_of(words, s);
    numbers::present(racer)
}

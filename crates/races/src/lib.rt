// SPECIFICATION 6.9, 6.10: what a delivery does to the races, in words that hold a window. What goes is written, nine words each, in `gone`; the
// answer is how many. The last clock is not set here.
#![tactic(auto)]

ghost use Rattle.std.specs.Prelude.{◌≡◌, ℕ, ◌≤◌, ◌<◌};
ghost use Rattle.model.specs.Layout.{window_of};
ghost use Rattle.model.specs.Races.{hedge_lost, resolve_by, resolve_cold_front_delivery};
ghost use Rattle.laws.specs.Sound.{Sound, SoundCold};
ghost use Rattle.laws.specs.Whole.{Whole, Holds};
ghost use Rattle.model.specs.Window.{Window};
ghost use Rattle.model.specs.declared.ColdFront.TheVariants.{Racing};
ghost use Rattle.report_words.specs.Report.{releases_of};
ghost use Rattle.races.specs.Hedges.{resolved, Seated};

use model::{ColdFront, Gone, Hash, Reason, Words, sizes};

// What a delivery means to the cold front: nothing, its end, or that its owner lost to the alternate.
#[derive(Clone, Copy)]
pub enum Resolution {
    Stays,
    Ends,
    Loses(u64, u64),
}

// `resolve_by` of a race, before it is done.
fn raced(owner: u64, alternate: u64, front: Hash, h: Hash, source: u64) -> Resolution
    ensures { ((clock : ℕ) (w : Window) → resolved result clock w ≡ resolve_by (Racing owner alternate front) h source clock w) × ((clock : ℕ) → SoundCold clock (Racing owner alternate front) → Seated result) }
{
    if !hash::equal(front, h) {
        return Resolution::Stays;
    }
    if source != alternate {
        return Resolution::Ends;
    }
    Resolution::Loses(owner, alternate)
}

// `resolve_by`, before it is done.
fn resolve_as(cold: ColdFront, h: Hash, source: u64) -> Resolution
    ensures { ((clock : ℕ) (w : Window) → resolved result clock w ≡ resolve_by cold h source clock w) × ((clock : ℕ) → SoundCold clock cold → Seated result) }
{
    match cold {
        ColdFront::Idle => Resolution::Stays,
        ColdFront::Waiting(_, front, _) => {
            if hash::equal(front, h) {
                return Resolution::Ends;
            }
            Resolution::Stays
        }
        ColdFront::Racing(owner, alternate, front) => raced(owner, alternate, front, h, source),
    }
}

// `hedge_lost`
fn hedge_lost(words: &mut Words, gone: &mut Gone, owner: usize, alternate: u64, clock: u64) -> usize
    requires { Whole words.old × (Sound clock (window_of words.old)) × (owner < 256) × (alternate < 256) }
    ensures { (result ≤ 256)
        × (Holds (hedge_lost owner alternate clock (window_of words.old)).window words.new)
        × (releases_of result gone.new ≡ (hedge_lost owner alternate clock (window_of words.old)).gone) }
{
    let mut flags: [u64; sizes::SEATS] = [1; sizes::SEATS];
    flags[owner] = 0;
    let preferred = Some(alternate);
    state_races::clear_probe(words);
    let n = retain::retain_peer_assignments_by(words, gone, &flags, Reason::HedgeLost);
    state_cooling::mark_peer_unresponsive(words, owner, clock);
    state::set_preferred(words, preferred);
    n
}

// `resolve_cold_front_delivery`
pub fn resolve_cold_front_delivery(
    words: &mut Words,
    gone: &mut Gone,
    h: Hash,
    source: u64,
    clock: u64,
) -> usize
    requires { Whole words.old × (Sound clock (window_of words.old)) }
    ensures { (result ≤ 256)
        × (Holds (resolve_cold_front_delivery h source clock (window_of words.old)).window words.new)
        × (releases_of result gone.new ≡ (resolve_cold_front_delivery h source clock (window_of words.old)).gone) }
{
    let cold = state::get_cold(words);
    let r = resolve_as(cold, h, source);
    let idle = ColdFront::Idle;
    match r {
        Resolution::Stays => 0,
        Resolution::Ends => {
            state::set_cold(words, idle);
            0
        }
        Resolution::Loses(owner, alternate) => {
            let o = owner as usize;
            state::set_cold(words, idle);
            hedge_lost(words, gone, o, alternate, clock)
        }
    }
}

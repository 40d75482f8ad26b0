// SPECIFICATION 6.7, 7.12, without refusals and lent report: whole seats dropped, with all that is theirs. `flags` has a word for each seat, nonzero
// where it is kept. What goes is written, nine words each, in `gone`; the answer is how many.
#![tactic(auto)]

ghost use Rattle.std.specs.Prelude.{◌≡◌, ◌≤◌};
ghost use Rattle.model.specs.Seats.{keep_seats};
ghost use Rattle.model.specs.Reasons.{reason_number};
ghost use Rattle.model.specs.LettingGo.{flagged, observation_kept, retain_peer_assignments, cold_kept, peer_kept, probe_kept, roles_kept, retain_owned_by};
ghost use Rattle.model.specs.Layout.{window_of};
ghost use Rattle.laws.specs.Whole.{Whole, Holds};
ghost use Rattle.laws.specs.Pending.{Ranged};
ghost use Rattle.report_words.specs.Report.{releases_of};
ghost use Rattle.retain.specs.Retains.{Roles};

use model::{ColdFront, Gone, Observation, PerSeat, PrefixProbe, Reason, Words, limits};

// `flagged`, of any number: none above 255 is kept.
pub fn is_kept(flags: &PerSeat, seat: u64) -> bool
    ensures { result ≡ flagged flags.now seat }
{
    if limits::MAX_SEAT < seat {
        return false;
    }
    let s = seat as usize;
    flags[s] != 0
}

// ---- entries, starts, last bodies, observation

// `observation_kept`
fn observation_kept(flags: &PerSeat, o: Observation) -> Observation
    ensures { result ≡ observation_kept (flagged flags.now) o }
{
    match o {
        Observation::Unarmed => o,
        Observation::Armed(owner, _) => {
            if is_kept(flags, owner) {
                return o;
            }
            Observation::Unarmed
        }
        Observation::Swept(owner, _) => {
            if is_kept(flags, owner) {
                return o;
            }
            Observation::Unarmed
        }
    }
}

// `retain_peer_assignments`, for any number as the reason.
pub fn retain_peer_assignments(
    words: &mut Words,
    gone: &mut Gone,
    flags: &PerSeat,
    reason: u64,
) -> usize
    requires { Whole words.old × Ranged (window_of words.old) }
    ensures { (result ≤ 256)
        × (Holds (retain_peer_assignments (flagged flags.now) reason (window_of words.old)).window words.new)
        × (releases_of result gone.new ≡ (retain_peer_assignments (flagged flags.now) reason (window_of words.old)).gone) }
{
    let count = state_queue::pending_count(words);
    let marks = marks::lost_marks(words, count, flags, reason);
    let n = batch::take_marked(words, gone, &marks);
    state_queue::keep_seats(words, flags);
    let o = state::get_observation(words);
    let k = observation_kept(flags, o);
    state::set_observation(words, k);
    n
}

// `retain_peer_assignments`, for one of the reasons.
pub fn retain_peer_assignments_by(
    words: &mut Words,
    gone: &mut Gone,
    flags: &PerSeat,
    reason: Reason,
) -> usize
    requires { Whole words.old × Ranged (window_of words.old) }
    ensures { (result ≤ 256)
        × (Holds (retain_peer_assignments (flagged flags.now) (reason_number reason) (window_of words.old)).window words.new)
        × (releases_of result gone.new ≡ (retain_peer_assignments (flagged flags.now) (reason_number reason) (window_of words.old)).gone) }
{
    retain_peer_assignments(words, gone, flags, u64::from(reason))
}

// ---- cold front, preferred, attempted owner, probe and racers

// `cold_kept`
fn cold_kept(flags: &PerSeat, x: ColdFront) -> ColdFront
    ensures { result ≡ cold_kept (flagged flags.now) x }
{
    match x {
        ColdFront::Idle => x,
        ColdFront::Waiting(owner, _, _) => {
            if is_kept(flags, owner) {
                return x;
            }
            ColdFront::Idle
        }
        ColdFront::Racing(owner, alternate, _) => {
            let a = is_kept(flags, owner);
            let b = is_kept(flags, alternate);
            if a & b {
                return x;
            }
            ColdFront::Idle
        }
    }
}

// `peer_kept`
fn peer_kept(flags: &PerSeat, x: Option<u64>) -> Option<u64>
    ensures { result ≡ peer_kept (flagged flags.now) x }
{
    match x {
        None => x,
        Some(s) => {
            if is_kept(flags, s) {
                return x;
            }
            None
        }
    }
}

// `probe_kept`: the probe goes with its owner, or where fewer than two racers are left.
fn keep_probe(words: &mut Words, flags: &PerSeat)
    requires { Whole words.old }
    ensures { Holds (probe_kept (flagged flags.now) (window_of words.old).races.probe (keep_seats (flagged flags.now) 0 (window_of words.old).races.racers) (window_of words.old)) words.new }
{
    let p = state_races::get_probe(words);
    match p {
        None => {
            return;
        }
        Some(PrefixProbe { owner, .. }) => {
            state_races::keep_racers(words, flags);
            let n = state_races::racers_left(words);
            let owned = is_kept(flags, owner);
            if owned & (2 <= n) {
                return;
            }
            state_races::clear_probe(words);
        }
    }
}

// `roles_kept`
fn keep_roles(words: &mut Words, flags: &PerSeat)
    requires { Whole words.old × Roles (window_of words.old) }
    ensures { Holds (roles_kept (flagged flags.now) (window_of words.old)) words.new }
{
    let c = state::get_cold(words);
    let cold = cold_kept(flags, c);
    let p = state::get_preferred(words);
    let preferred = peer_kept(flags, p);
    let a = state::get_attempted(words);
    let attempted = peer_kept(flags, a);
    state::set_cold(words, cold);
    state::set_preferred(words, preferred);
    state::set_attempted(words, attempted);
    keep_probe(words, flags);
}

// `retain_owned_by`
pub fn retain_owned_by(words: &mut Words, gone: &mut Gone, flags: &PerSeat) -> usize
    requires { Whole words.old × Ranged (window_of words.old) × Roles (window_of words.old) }
    ensures { (result ≤ 256)
        × (Holds (retain_owned_by flags.now (window_of words.old)).window words.new)
        × (releases_of result gone.new ≡ (retain_owned_by flags.now (window_of words.old)).gone) }
{
    keep_roles(words, flags);
    retain_peer_assignments_by(words, gone, flags, Reason::SeatLost)
}

// SPECIFICATION 6.9: a delivery in the race of a prefix probe, in words that hold a window. What goes is written, nine words each, in `gone`; the
// answer is how many. The last clock is not set here.
#![tactic(auto)]

ghost use Rattle.std.specs.Prelude.{◌≡◌, cond, not, ◌||◌, ◌≤◌, ◌<◌, ◌^◌, get_or, eqb};
ghost use Rattle.model.specs.Numbers.{max_seat, max_clock, present};
ghost use Rattle.model.specs.Layout.{window_of};
ghost use Rattle.model.specs.Cooling.{key_of, mark_peer_unresponsive};
ghost use Rattle.model.specs.Races.{place_of, all_four, progressed, has_won, winner, race_won, race_progress, record_prefix_probe_delivery};
ghost use Rattle.model.specs.Window.{with_probe, without_probe, with_cold, with_observation, probing};
ghost use Rattle.model.specs.declared.ColdFront.TheVariants.{Idle};
ghost use Rattle.model.specs.declared.Observation.TheVariants.{Unarmed};
ghost use Rattle.laws.specs.Sound.{Sound, SoundSource};
ghost use Rattle.laws.specs.Whole.{Whole, Holds};
ghost use Rattle.report_words.specs.Report.{releases_of};
ghost use Rattle.probe_race.specs.Race.{noted};
ghost use Rattle.probe_race.specs.Scans.{Flags};

use model::{ColdFront, Gone, Hash, Observation, PrefixProbe, Reason, Words, sizes};

// ---- a racer's progress

// `all_four`
fn all_four(progress: u64) -> bool
    ensures { result ≡ all_four progress }
{
    u64::count_ones(progress % 16) == 4
}

// `has_won`
fn has_won(racer: u64) -> bool
    ensures { result ≡ has_won racer }
{
    if racer == 0 {
        return false;
    }
    all_four(racer - 1)
}

// The bit of a planned hash in a progress byte.
fn bit_of(i: usize) -> u64
    requires { i < 8 }
    ensures { (result ≡ 2 ^ i) × (result < 256) }
{
    1 << i
}

// `progressed`: a seat that does not race has no progress.
fn progressed(i: usize, bit: u64, racer: u64) -> u64
    requires { (bit ≡ 2 ^ i) × ((bit < 256) × (racer ≤ 256)) }
    ensures { result ≡ progressed i racer }
{
    if racer == 0 {
        return 0;
    }
    ((racer - 1) | bit) + 1
}

// ---- the race in the words

// `place_of`, among the planned.
fn place_of(words: &Words, h: Hash) -> usize
    requires { Whole words.now }
    ensures { result ≡ place_of h (window_of words.now).races.planned }
{
    let n = state_races::planned_count(words) as usize;
    for i in 0..n {
        let x = state_races::planned_hash(words, i);
        if hash::equal(x, h) {
            return i;
        }
    }
    n
}

// `winner`, from the lowest seat on.
fn winner(words: &Words) -> Option<u64>
    ensures { (result ≡ winner 0 (window_of words.now).races.racers) × SoundSource result }
{
    for seat in 0..sizes::SEATS {
        let racer = state::racer_of(words, seat);
        if has_won(racer) {
            return Some(seat as u64);
        }
    }
    None
}

// 1 for a seat that keeps what it has: the winner, and one that does not race.
fn race_flag(racer: u64, won: bool) -> u64
    ensures { result ≡ cond (won || not (present racer)) 1 0 }
{
    if won {
        return 1;
    }
    if numbers::present(racer) {
        return 0;
    }
    1
}

fn race_flags(words: &Words, win: usize) -> [u64; sizes::SEATS]
    ensures { Flags win (window_of words.now).races.racers 256 result }
{
    let mut flags = [0; sizes::SEATS];
    for s in 0..sizes::SEATS {
        let racer = state::racer_of(words, s);
        flags[s] = race_flag(racer, s == win);
    }
    flags
}

// ---- its end

// What a win ends: the probe, the cold front, the observation.
fn end_races(words: &mut Words)
    requires { Whole words.old }
    ensures { Holds (with_observation Unarmed (with_cold Idle (without_probe (window_of words.old)))) words.new }
{
    let idle = ColdFront::Idle;
    let unarmed = Observation::Unarmed;
    state_races::clear_probe(words);
    state::set_cold(words, idle);
    state::set_observation(words, unarmed);
}

// An owner that did not win is cooled.
fn cool_loser(words: &mut Words, win: usize, owner: usize, clock: u64)
    requires { Whole words.old × ((owner < 256) × ((clock ≤ max_clock) × (key_of owner (window_of words.old) ≤ max_seat))) }
    ensures { Holds (cond (eqb win owner) (window_of words.old) (mark_peer_unresponsive owner clock (window_of words.old))) words.new }
{
    if win == owner {
        return;
    }
    state_cooling::mark_peer_unresponsive(words, owner, clock);
}

// `race_won`
fn race_won(words: &mut Words, gone: &mut Gone, win: u64, owner: u64, clock: u64) -> usize
    requires { Whole words.old × (Sound clock (window_of words.old)) × (win ≤ max_seat) × (owner ≤ max_seat) }
    ensures { (result ≤ 256)
        × (Holds (race_won win owner (window_of words.old).races.racers clock (window_of words.old)).window words.new)
        × (releases_of result gone.new ≡ (race_won win owner (window_of words.old).races.racers clock (window_of words.old)).gone) }
{
    let first = win as usize;
    let o = owner as usize;
    let preferred = Some(win);
    let flags = race_flags(words, first);
    end_races(words);
    let n = retain::retain_peer_assignments_by(words, gone, &flags, Reason::PrefixRaceLost);
    cool_loser(words, first, o, clock);
    state::set_preferred(words, preferred);
    n
}

// Without a winner the probe goes on, unless all four are in.
fn race_on(words: &mut Words, owner: u64, accepted: u64, started: u64)
    requires { Whole words.old × (started ≤ max_clock) }
    ensures { Holds (cond (all_four accepted) (without_probe (window_of words.old)) (with_probe (probing owner accepted started) (window_of words.old).races.planned (window_of words.old).races.racers (window_of words.old))) words.new }
{
    if all_four(accepted) {
        state_races::clear_probe(words);
        return;
    }
    let p = Some(PrefixProbe {
        owner,
        accepted,
        started,
    });
    state_races::set_probe(words, p);
}

// ---- a delivery

// The planned hash at the place i came from the source.
fn note_progress(words: &mut Words, i: usize, bit: u64, source: usize)
    requires { Whole words.old × ((bit ≡ 2 ^ i) × ((bit < 256) × ((source < 256) × (get_or (window_of words.old).races.racers source 0 ≤ 256)))) }
    ensures { Holds (noted i source (window_of words.old)) words.new }
{
    let racer = state::racer_of(words, source);
    let next = progressed(i, bit, racer);
    state_races::set_racer(words, source, next);
}

// `race_progress`
fn race_progress(
    words: &mut Words,
    gone: &mut Gone,
    i: usize,
    source: u64,
    owner: u64,
    accepted: u64,
    started: u64,
    clock: u64,
) -> usize
    requires { Whole words.old × (Sound clock (window_of words.old)) × (i < 8) × (source ≤ max_seat) × ((window_of words.old).races.probe ≡ probing owner accepted started) }
    ensures { (result ≤ 256)
        × (Holds (race_progress i source owner accepted started clock (window_of words.old)).window words.new)
        × (releases_of result gone.new ≡ (race_progress i source owner accepted started clock (window_of words.old)).gone) }
{
    let bit = bit_of(i);
    let all = accepted | bit;
    let s = source as usize;
    note_progress(words, i, bit, s);
    let w = winner(words);
    match w {
        None => {
            race_on(words, owner, all, started);
            0
        }
        Some(win) => race_won(words, gone, win, owner, clock),
    }
}

// `record_prefix_probe_delivery`
pub fn record_prefix_probe_delivery(
    words: &mut Words,
    gone: &mut Gone,
    h: Hash,
    source: u64,
    clock: u64,
) -> usize
    requires { Whole words.old × (Sound clock (window_of words.old)) × (source ≤ max_seat) }
    ensures { (result ≤ 256)
        × (Holds (record_prefix_probe_delivery h source clock (window_of words.old)).window words.new)
        × (releases_of result gone.new ≡ (record_prefix_probe_delivery h source clock (window_of words.old)).gone) }
{
    let p = state_races::get_probe(words);
    let Some(
        PrefixProbe {
            owner,
            accepted,
            started,
        },
    ) = p
    else {
        return 0;
    };
    let i = place_of(words, h);
    let n = state_races::planned_count(words) as usize;
    if n <= i {
        return 0;
    }
    race_progress(words, gone, i, source, owner, accepted, started, clock)
}

// The states in the head of the 4,096 lent words: stall episode, stuck frontier, cold front, observation, probe. Each is read as the value that the
// definitions read there, and written back whole. A time that is written is at most a clock. Stall episode and stuck frontier differ in the name of a
// field: they are two structs of the Rust, and one for both would have the name of neither.
#![tactic(auto)]

ghost use Rattle.std.specs.Prelude.{◌≡◌};
ghost use Rattle.model.specs.Layout.{decode, word, hash_at, stall_of, stuck_of, cold_of, observation_of, probe_of, stall_words, stuck_words, cold_words, observation_words, probe_words};
ghost use Rattle.model.specs.Places.{head_stall, head_stall_owner, head_stall_hash, head_stuck, head_stuck_height, head_stuck_hash, head_cold, head_cold_owner, head_cold_other, head_cold_hash, head_observation, head_observation_owner, head_observation_hash, head_probe, head_probe_owner, head_probe_accepted};
ghost use Rattle.laws.specs.Tables.{with_words};
ghost use Rattle.states.specs.Fits.{stall_fits, stuck_fits, cold_fits, probe_fits};

use model::{
    ColdFront, Hash, Observation, PrefixProbe, StallEpisode, StuckFrontier, Words, head, sizes,
};

// ---- stall episode

// `stall_of`
fn stall_of(since: u64, owner: u64, h: Hash) -> Option<StallEpisode>
    ensures { result ≡ stall_of since owner h }
{
    since.checked_sub(1).map(|since| StallEpisode {
        owner,
        front: h,
        since,
    })
}

pub fn load_stall(words: &Words) -> Option<StallEpisode>
    ensures { result ≡ stall_of (word head_stall (decode words.now)) (word head_stall_owner (decode words.now)) (hash_at head_stall_hash (decode words.now)) }
{
    let since = layout::word_of(words, head::STALL);
    let owner = layout::word_of(words, head::STALL_OWNER);
    let h = layout::hash_of(words, head::STALL_HASH);
    stall_of(since, owner, h)
}

// `stall_words`
fn stall_list(s: Option<StallEpisode>) -> [u64; sizes::STALL_WORDS]
    requires { stall_fits s }
    ensures { result ≡ stall_words s }
{
    match s {
        None => [0, 0, 0, 0, 0, 0],
        Some(
            StallEpisode {
                owner,
                front: h,
                since,
            },
        ) => [since + 1, owner, h.a, h.b, h.c, h.d],
    }
}

pub fn store_stall(words: &mut Words, s: Option<StallEpisode>)
    requires { stall_fits s }
    ensures { decode words.new ≡ with_words head_stall (stall_words s) (decode words.old) }
{
    let l = stall_list(s);
    layout::store_at(words, head::STALL, &l);
}

// ---- stuck frontier

// `stuck_of`
fn stuck_of(since: u64, height: u64, h: Hash) -> Option<StuckFrontier>
    ensures { result ≡ stuck_of since height h }
{
    since.checked_sub(1).map(|since| StuckFrontier {
        height,
        front: h,
        since,
    })
}

pub fn load_stuck(words: &Words) -> Option<StuckFrontier>
    ensures { result ≡ stuck_of (word head_stuck (decode words.now)) (word head_stuck_height (decode words.now)) (hash_at head_stuck_hash (decode words.now)) }
{
    let since = layout::word_of(words, head::STUCK);
    let height = layout::word_of(words, head::STUCK_HEIGHT);
    let h = layout::hash_of(words, head::STUCK_HASH);
    stuck_of(since, height, h)
}

// `stuck_words`
fn stuck_list(s: Option<StuckFrontier>) -> [u64; sizes::STUCK_WORDS]
    requires { stuck_fits s }
    ensures { result ≡ stuck_words s }
{
    match s {
        None => [0, 0, 0, 0, 0, 0],
        Some(
            StuckFrontier {
                height,
                front: h,
                since,
            },
        ) => [since + 1, height, h.a, h.b, h.c, h.d],
    }
}

pub fn store_stuck(words: &mut Words, s: Option<StuckFrontier>)
    requires { stuck_fits s }
    ensures { decode words.new ≡ with_words head_stuck (stuck_words s) (decode words.old) }
{
    let l = stuck_list(s);
    layout::store_at(words, head::STUCK, &l);
}

// ---- cold front

// `cold_of`; a waiting one without a time is read as from time 0, as the definition's `x - 1` has it
fn cold_of(tag: u64, owner: u64, x: u64, h: Hash) -> ColdFront
    ensures { result ≡ cold_of tag owner x h }
{
    if tag == 0 {
        return ColdFront::Idle;
    }
    if tag == 1 {
        return ColdFront::Waiting(owner, h, x.saturating_sub(1));
    }
    ColdFront::Racing(owner, x, h)
}

pub fn load_cold(words: &Words) -> ColdFront
    ensures { result ≡ cold_of (word head_cold (decode words.now)) (word head_cold_owner (decode words.now)) (word head_cold_other (decode words.now)) (hash_at head_cold_hash (decode words.now)) }
{
    let tag = layout::word_of(words, head::COLD);
    let owner = layout::word_of(words, head::COLD_OWNER);
    let x = layout::word_of(words, head::COLD_OTHER);
    let h = layout::hash_of(words, head::COLD_HASH);
    cold_of(tag, owner, x, h)
}

// `cold_words`
fn cold_list(s: ColdFront) -> [u64; sizes::COLD_WORDS]
    requires { cold_fits s }
    ensures { result ≡ cold_words s }
{
    match s {
        ColdFront::Idle => [0, 0, 0, 0, 0, 0, 0],
        ColdFront::Waiting(owner, h, since) => [1, owner, since + 1, h.a, h.b, h.c, h.d],
        ColdFront::Racing(owner, alternate, h) => [2, owner, alternate, h.a, h.b, h.c, h.d],
    }
}

pub fn store_cold(words: &mut Words, s: ColdFront)
    requires { cold_fits s }
    ensures { decode words.new ≡ with_words head_cold (cold_words s) (decode words.old) }
{
    let l = cold_list(s);
    layout::store_at(words, head::COLD, &l);
}

// ---- observation

// `observation_of`
fn observation_of(tag: u64, owner: u64, h: Hash) -> Observation
    ensures { result ≡ observation_of tag owner h }
{
    if tag == 0 {
        return Observation::Unarmed;
    }
    if tag == 1 {
        return Observation::Armed(owner, h);
    }
    Observation::Swept(owner, h)
}

pub fn load_observation(words: &Words) -> Observation
    ensures { result ≡ observation_of (word head_observation (decode words.now)) (word head_observation_owner (decode words.now)) (hash_at head_observation_hash (decode words.now)) }
{
    let tag = layout::word_of(words, head::OBSERVATION);
    let owner = layout::word_of(words, head::OBSERVATION_OWNER);
    let h = layout::hash_of(words, head::OBSERVATION_HASH);
    observation_of(tag, owner, h)
}

// `observation_words`
fn observation_list(s: Observation) -> [u64; sizes::OBSERVATION_WORDS]
    ensures { result ≡ observation_words s }
{
    match s {
        Observation::Unarmed => [0, 0, 0, 0, 0, 0],
        Observation::Armed(owner, h) => [1, owner, h.a, h.b, h.c, h.d],
        Observation::Swept(owner, h) => [2, owner, h.a, h.b, h.c, h.d],
    }
}

pub fn store_observation(words: &mut Words, s: Observation)
    ensures { decode words.new ≡ with_words head_observation (observation_words s) (decode words.old) }
{
    let l = observation_list(s);
    layout::store_at(words, head::OBSERVATION, &l);
}

// ---- probe, without its hashes

// `probe_of`
fn probe_of(started: u64, owner: u64, accepted: u64) -> Option<PrefixProbe>
    ensures { result ≡ probe_of started owner accepted }
{
    started.checked_sub(1).map(|started| PrefixProbe {
        owner,
        accepted,
        started,
    })
}

pub fn load_probe(words: &Words) -> Option<PrefixProbe>
    ensures { result ≡ probe_of (word head_probe (decode words.now)) (word head_probe_owner (decode words.now)) (word head_probe_accepted (decode words.now)) }
{
    let started = layout::word_of(words, head::PROBE);
    let owner = layout::word_of(words, head::PROBE_OWNER);
    let accepted = layout::word_of(words, head::PROBE_ACCEPTED);
    probe_of(started, owner, accepted)
}

// `probe_words`
fn probe_list(p: Option<PrefixProbe>, n: u64) -> [u64; 4]
    requires { probe_fits p }
    ensures { result ≡ probe_words p n }
{
    match p {
        None => [0, 0, n, 0],
        Some(
            PrefixProbe {
                owner,
                accepted,
                started,
            },
        ) => [started + 1, owner, n, accepted],
    }
}

// A probe and the number of its hashes.
pub fn store_probe(words: &mut Words, p: Option<PrefixProbe>, n: u64)
    requires { probe_fits p }
    ensures { decode words.new ≡ with_words head_probe (probe_words p n) (decode words.old) }
{
    let l = probe_list(p, n);
    layout::store_at(words, head::PROBE, &l);
}

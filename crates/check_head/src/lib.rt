// Whether the head of 4,096 lent words is a window's, but for the racers of its probe: specs/Layout.antt of the model has its words. A group that is
// not there is 0 throughout; one that is there has its ranges.
#![tactic(auto)]

ghost use Rattle.std.specs.Prelude.{◌≡◌, ◌+◌, ◌≤◌, eqb};
ghost use Rattle.model.specs.Layout.{decode, counts_ok, settings_ok, settings_of, small_ok, cold_ok, hedged_ok, observation_ok};
ghost use Rattle.facts.specs.Words.{zeros, clock, since_fits, probe_fits, later_fits, head_fits};

use model::{Words, at, head, limits, sizes};

pub fn to_usize(x: u64) -> usize
    ensures { result ≡ x }
{
    x as usize
}

// OR of the n words from a on.
pub fn any_bits(w: &Words, a: usize, n: usize) -> u64
    requires { a + n ≤ 4096 }
    ensures { eqb result 0 ≡ zeros w.now a n }
{
    let mut acc: u64 = 0;
    for k in 0..n {
        acc = acc | w[a + k];
    }
    acc
}

// Format, count, last clock, high waters, mean, frontier.
fn counts(w: &Words) -> bool
    ensures { result ≡ counts_ok (decode w.now) }
{
    let n = w[at::COUNT];
    let mean = w[at::MEAN];
    (w[at::FORMAT] == limits::FORMAT)
        & (n <= limits::MAX_PENDING)
        & (w[at::LAST_CLOCK] <= limits::MAX_CLOCK)
        & (n <= w[at::HIGH_BLOCKS])
        & (w[at::TOTAL] <= w[at::HIGH_BYTES])
        & (limits::MIN_ESTIMATE <= mean)
        & (mean <= limits::MAX_ESTIMATE)
        & (w[at::FRONTIER] <= limits::MAX_HEIGHT)
}

fn settings(w: &Words) -> bool
    ensures { result ≡ settings_ok (settings_of (decode w.now)) }
{
    (w[at::MAX_PENDING_BLOCKS] <= limits::MAX_PENDING)
        & (w[at::MAX_PENDING_BYTES] <= limits::MAX_BYTE_LIMIT)
        & (w[at::MAX_RECEIVED_BLOCKS] <= limits::MAX_COUNT)
        & (w[at::MAX_PEER_INFLIGHT] <= limits::MAX_COUNT)
        & (w[at::FANOUT_PEER_INFLIGHT] <= limits::MAX_COUNT)
        & (w[at::MIN_PEERS_FOR_FANOUT] <= limits::MAX_COUNT)
        & (w[at::GETDATA_BATCH_LIMIT] <= limits::MAX_COUNT)
        & (w[at::BLOCK_SPACING] <= limits::MAX_DURATION)
        & (w[at::RECEIVED_TIMEOUT] <= limits::MAX_DURATION)
        & (w[at::STALL_TIMEOUT_INITIAL] <= limits::MAX_DURATION)
        & (w[at::STALL_TIMEOUT_MAX] <= limits::MAX_DURATION)
        & (w[at::STALLER_COOLDOWN] <= limits::MAX_DURATION)
}

// Engaged, the pace, preferred and attempted.
fn small(w: &Words) -> bool
    requires { clock w.now ≤ 4611686018427387904 }
    ensures { result ≡ small_ok (decode w.now) }
{
    let latest = w[at::LAST_CLOCK] + 1;
    (w[at::FANOUT_ENGAGED] <= 1)
        & (w[at::FRONT_MEAN] <= limits::MAX_STORED_FRONT_MEAN)
        & (w[at::FRONT_ADVANCE] <= latest)
        & (w[at::STALL_TIMEOUT] <= limits::MAX_DURATION)
        & (w[at::PREFERRED] <= limits::MAX_STORED_SEAT)
        & (w[at::ATTEMPTED] <= limits::MAX_STORED_SEAT)
}

// The stall or the stuck frontier: six words from a on, the first a stored time, the second at most m.
fn since(w: &Words, a: usize, m: u64) -> bool
    requires { (clock w.now ≤ 4611686018427387904) × (a + 6 ≤ 4096) }
    ensures { result ≡ since_fits w.now a m }
{
    let t = w[a];
    if t == 0 {
        return any_bits(w, a, sizes::STALL_WORDS) == 0;
    }
    let latest = w[at::LAST_CLOCK] + 1;
    (t <= latest) & (w[a + 1] <= m)
}

// The cold front: none, waiting since, or racing with another seat.
fn cold(w: &Words) -> bool
    requires { clock w.now ≤ 4611686018427387904 }
    ensures { result ≡ cold_ok (decode w.now) }
{
    let tag = w[at::COLD];
    if tag == 0 {
        return any_bits(w, at::COLD, sizes::COLD_WORDS) == 0;
    }
    let x = w[at::COLD_OTHER];
    if tag == 1 {
        let latest = w[at::LAST_CLOCK] + 1;
        return (w[at::COLD_OWNER] <= limits::MAX_SEAT) & (0 < x) & (x <= latest);
    }
    (tag == 2) & ((w[at::COLD_OWNER] <= limits::MAX_SEAT) & (x <= limits::MAX_SEAT))
}

// At most two hedged fronts, and 0 after them.
fn hedged(w: &Words) -> bool
    ensures { result ≡ hedged_ok (decode w.now) }
{
    let n = to_usize(w[at::HEDGED]);
    if sizes::HEDGES < n {
        return false;
    }
    any_bits(
        w,
        at::HEDGED_HASHES + sizes::HASH_WORDS * n,
        sizes::HEDGED_WORDS - sizes::HASH_WORDS * n,
    ) == 0
}

fn observation(w: &Words) -> bool
    ensures { result ≡ observation_ok (decode w.now) }
{
    let tag = w[at::OBSERVATION];
    if tag == 0 {
        return any_bits(w, at::OBSERVATION, sizes::OBSERVATION_WORDS) == 0;
    }
    (tag <= 2) & (w[at::OBSERVATION_OWNER] <= limits::MAX_SEAT)
}

// The probe and its planned hashes: at most eight, and 0 after them.
fn probe(w: &Words) -> bool
    requires { clock w.now ≤ 4611686018427387904 }
    ensures { result ≡ probe_fits (decode w.now) }
{
    let since = w[at::PROBE];
    if since == 0 {
        return any_bits(w, at::PROBE, sizes::PROBE_WORDS) == 0;
    }
    let n = to_usize(w[at::PROBE_COUNT]);
    if sizes::PROBED < n {
        return false;
    }
    let rest = any_bits(
        w,
        at::PROBE_HASHES + sizes::HASH_WORDS * n,
        sizes::PLANNED_WORDS - sizes::HASH_WORDS * n,
    );
    let latest = w[at::LAST_CLOCK] + 1;
    (since <= latest)
        & (w[at::PROBE_OWNER] <= limits::MAX_SEAT)
        & (n <= sizes::PROBED)
        & (w[at::PROBE_ACCEPTED] <= limits::MAX_PROGRESS)
        & (rest == 0)
}

// The head's parts, but for those of its first words.
fn parts(w: &Words) -> bool
    requires { clock w.now ≤ 4611686018427387904 }
    ensures { result ≡ later_fits w.now }
{
    let a = settings(w);
    let b = small(w);
    let c = since(w, at::STALL, limits::MAX_SEAT);
    let d = since(w, at::STUCK, limits::MAX_HEIGHT);
    let e = cold(w);
    let f = hedged(w);
    let g = observation(w);
    let h = probe(w);
    let i = any_bits(w, at::KEPT, head::KEPT_WORDS);
    a & b & c & d & e & f & g & h & (i == 0)
}

// The whole head.
pub fn head(w: &Words) -> bool
    ensures { result ≡ head_fits w.now }
{
    if !counts(w) {
        return false;
    }
    parts(w)
}

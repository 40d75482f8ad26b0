// What a call is refused by: of the numbers of SPECIFICATION 4.1 the lowest. Of a request's list, 7 and 8, see `request_calls`; of the lists
// of a plan, 12 and then 10, see `plan_calls`.
#![tactic(auto)]

ghost use Rattle.std.specs.Prelude.{◌≡◌, true, length, eqb, IfOk};
ghost use Rattle.model.specs.Numbers.{clock_ok};
ghost use Rattle.model.specs.Layout.{settings_ok};
ghost use Rattle.model.specs.Says.{refusal_number};
ghost use Rattle.model.specs.Lists.{all};
ghost use Rattle.model.specs.Places.{seats};
ghost use Rattle.model.specs.Refusals.{at, timeless, checking, nothing, seat_ok, moment_ok, report_ok, window_refusal, opening_refusal, body_refusal, source_ok, alternates_ok};
ghost use Rattle.admission.specs.Given.{has_report, room_of, moment_at};

use model::{PerSeat, Refusal, Settings, Words, at, limits, sizes};

// `clock_ok`: a clock is within the bound, and not before the last accepted one.
fn clock_fits(last: u64, clock: u64) -> bool
    ensures { result ≡ clock_ok last clock }
{
    (clock <= limits::MAX_CLOCK) & (last <= clock)
}

// `report_ok`: a call that has a report is lent 256 places.
fn room_fits(room: Option<usize>) -> bool
    ensures { result ≡ report_ok (has_report room) (room_of room) }
{
    match room {
        None => true,
        Some(n) => n >= sizes::PLACES,
    }
}

// `moment_ok`, of the last accepted clock.
fn is_in_time(last: u64, clock: Option<u64>) -> bool
    ensures { result ≡ moment_ok (moment_at clock) last }
{
    match clock {
        None => true,
        Some(c) => clock_fits(last, c),
    }
}

// 2, 3, 4, 6.
#[inline]
fn refused_by(
    words: &Words,
    room: Option<usize>,
    clock: Option<u64>,
    peers: bool,
) -> Result<(), Refusal>
    ensures { refusal_number result ≡ window_refusal (checking (has_report room) (moment_at clock) peers nothing) words.now (room_of room) }
{
    if !check_window::holds_window(words) {
        return Err(Refusal::NotAWindow);
    }
    if !room_fits(room) {
        return Err(Refusal::ShortReport);
    }
    if !is_in_time(state::get_clock(words), clock) {
        return Err(Refusal::Clock);
    }
    if !peers {
        return Err(Refusal::Seats);
    }
    Ok(())
}

// What a call or a query is refused by: 1, 2, 3 where it has a report, of `room` places, 4 where it has a clock, 6. Where nothing refuses, the words as they are,
// an array.
#[inline]
pub fn admitted(
    words: &[u64],
    room: Option<usize>,
    clock: Option<u64>,
    peers: bool,
) -> Result<&Words, Refusal>
    ensures refusal { refusal_number result ≡ window_refusal (checking (has_report room) (moment_at clock) peers nothing) words.now (room_of room) }
    ensures same { IfOk result (λ w. w.now ≡ words.now) }
{
    let array = words.as_array().ok_or(Refusal::WordCount)?;
    refused_by(array, room, clock, peers)?;
    Ok(array)
}

// ---- the opening

// `settings_ok`
fn settings_fit(b: Settings) -> bool
    ensures { result ≡ settings_ok b }
{
    (b.max_pending_blocks <= limits::MAX_PENDING)
        & (b.max_pending_bytes <= limits::MAX_BYTE_LIMIT)
        & (b.max_received_blocks <= limits::MAX_COUNT)
        & (b.max_peer_inflight <= limits::MAX_COUNT)
        & (b.fanout_peer_inflight <= limits::MAX_COUNT)
        & (b.min_peers_for_fanout <= limits::MAX_COUNT)
        & (b.getdata_batch_limit <= limits::MAX_COUNT)
        & (b.block_spacing <= limits::MAX_DURATION)
        & (b.received_timeout <= limits::MAX_DURATION)
        & (b.stall_timeout_initial <= limits::MAX_DURATION)
        & (b.stall_timeout_max <= limits::MAX_DURATION)
        & (b.staller_cooldown <= limits::MAX_DURATION)
}

// `seat_ok` of each.
fn all_seats(keys: &[u64]) -> bool
    ensures { result ≡ all seat_ok keys.now }
{
    keys.iter().all(|k| *k <= limits::MAX_SEAT)
}

// What an opening is refused by: 1, 4 by the bound alone, 5, 6. Of the words it reads nothing. Where nothing refuses, the keys, an array.
pub fn opening_admitted<'a>(
    words: &[u64],
    clock: u64,
    b: Settings,
    keys: &'a [u64],
) -> Result<&'a PerSeat, Refusal>
    ensures refusal { refusal_number result ≡ opening_refusal clock b keys.now words.now }
    ensures same { IfOk result (λ k. k.now ≡ keys.now) }
{
    if words.len() != at::WORDS {
        return Err(Refusal::WordCount);
    }
    if !clock_fits(0, clock) {
        return Err(Refusal::Clock);
    }
    if !settings_fit(b) {
        return Err(Refusal::Settings);
    }
    let array = keys.as_array().ok_or(Refusal::Seats)?;
    if !all_seats(array) {
        return Err(Refusal::Seats);
    }
    Ok(array)
}

// ---- calls that let go

// What a call that lets go of whole seats is refused by: 1, 2, 3, 6. Where nothing refuses, the flags, an array.
pub fn flags_admitted<'a>(
    words: &[u64],
    room: usize,
    flags: &'a [u64],
) -> Result<&'a PerSeat, Refusal>
    ensures refusal { refusal_number result ≡ window_refusal (checking true timeless (eqb (length flags.now) seats) nothing) words.now room }
    ensures same { IfOk result (λ f. f.now ≡ flags.now) }
{
    admitted(words, Some(room), None, true)?;
    Ok(flags.as_array().ok_or(Refusal::Seats)?)
}

// What a delivery is refused by: 1, 2, 3, 4, 6, 9.
pub fn body_refused_by(
    words: &[u64],
    room: usize,
    clock: u64,
    peers: bool,
    bytes: u64,
) -> Result<(), Refusal>
    ensures { refusal_number result ≡ window_refusal (checking true (at clock) peers (body_refusal bytes)) words.now room }
{
    admitted(words, Some(room), Some(clock), peers)?;
    if bytes > limits::MAX_BODY {
        return Err(Refusal::Body);
    }
    Ok(())
}

// 6, for a source that may be missing.
pub fn source_ok(source: Option<u64>) -> bool
    ensures { result ≡ source_ok source }
{
    match source {
        None => true,
        Some(s) => s <= limits::MAX_SEAT,
    }
}

// ---- the alternates of a probe

// At most 256, each at most 255.
pub fn alternates_ok(alternates: &[u64]) -> bool
    ensures { result ≡ alternates_ok alternates.now }
{
    alternates.len() <= sizes::SEATS && all_seats(alternates)
}

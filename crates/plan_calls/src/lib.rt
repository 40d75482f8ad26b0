// The call that plans a request, for an expired or cooling peer too or not (`retry`), with its refusals, in lent words. What the sweep lets go is written, nine words each, in `gone`: the public
// call writes the lent report from it. `room` is that report's length. The plan is written in `hashes` and `heights`. It promises `PlansGo` of the
// change that it is (specs/Plans.antt).
#![tactic(auto)]

ghost use Rattle.std.specs.Prelude.{◌≡◌, true, length};
ghost use Rattle.model.specs.Refusals.{at, checking, seat_ok, window_refusal};
ghost use Rattle.model.specs.Says.{next_request_says, refusal_number};
ghost use Rattle.planning.specs.Proposes.{lent_by};
ghost use Rattle.plan_calls.specs.Plans.{plans_by, PlansGo};
ghost use Rattle.plan_calls.specs.Refused.{ListsRefused, lists_refusal};

use model::{Gone, NextRequest, Refusal, Words, limits, sizes};
use planning::Given;

// the words of a plan's hashes, of as many as it may have
const PLAN_WORDS: usize = sizes::PLACES * sizes::HASH_WORDS;

// ---- refusals

// `lists_refusal`, by the lengths of the lists: 12, then 10.
fn lists_refused_by(chain: usize, tip: u32, hashes: usize, heights: usize) -> Result<(), Refusal>
    ensures { ListsRefused chain tip hashes heights (refusal_number result) }
{
    if chain as u64 != sizes::HASH_WORDS as u64 * (tip as u64 + 1) {
        return Err(Refusal::Chain);
    }
    if hashes < PLAN_WORDS {
        return Err(Refusal::ShortOutput);
    }
    if heights < sizes::PLACES {
        return Err(Refusal::ShortOutput);
    }
    Ok(())
}

// What a call that plans is refused by: 1, 2, 3, 4, 6, 12, 10. The lists are named by their lengths.
fn refused_by(
    words: &[u64],
    room: usize,
    clock: u64,
    source: u64,
    chain: usize,
    tip: u32,
    hashes: usize,
    heights: usize,
) -> Result<(), Refusal>
    ensures { refusal_number result ≡ window_refusal (checking true (at clock) (seat_ok source) (lists_refusal chain tip hashes heights)) words.now room }
{
    admission::admitted(words, Some(room), Some(clock), source <= limits::MAX_SEAT)?;
    lists_refused_by(chain, tip, hashes, heights)
}

// ---- the call

// `plans`, or `plans_retry`: the plan, then the last clock.
pub fn next_peer_request(
    words: &mut [u64],
    room: usize,
    gone: &mut Gone,
    hashes: &mut [u64],
    heights: &mut [u32],
    source: u64,
    given: Given,
    retry: bool,
    clock: u64,
) -> Result<NextRequest, Refusal>
    ensures { PlansGo (length gone.old)
        (plans_by retry clock source (lent_by given.entry) (length hashes.old) (length heights.old))
        words.old room (next_request_says result) words.new gone.new
        hashes.old hashes.new heights.old heights.new }
{
    let words: &mut Words = words.as_mut_array().ok_or(Refusal::WordCount)?;
    refused_by(
        words,
        room,
        clock,
        source,
        given.chain.len(),
        given.tip,
        hashes.len(),
        heights.len(),
    )?;
    let answer = planning::next_peer_request(
        words, gone, hashes, heights, source, given, retry, clock,
    );
    state::set_clock(words, clock);
    Ok(answer)
}

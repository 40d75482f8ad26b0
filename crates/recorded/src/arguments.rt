// The arguments of a call, in the order of crates/kofudile/API.md: plain ones first, then each list with its length before it.
ghost use Rattle.std.specs.Prelude.{◌≡◌, ◌<◌, ◌≤◌, ◌+◌, take};
ghost use Rattle.recorded.specs.Args.{settings_at, opening_at, words_at, second_list, behind_words, flags_at};
ghost use Rattle.recorded.specs.Stream.{on, row_at};

use crate::Opening;
use crate::stream::{Listed, Number, Place, list_at, row};
use model::Settings;

fn settings_at(a: Place) -> Settings
    ensures { result ≡ settings_at a.entry.numbers.now a.entry.at }
{
    Settings {
        max_pending_blocks: a.nth(0),
        max_pending_bytes: a.nth(1),
        max_received_blocks: a.nth(2),
        max_peer_inflight: a.nth(3),
        fanout_peer_inflight: a.nth(4),
        min_peers_for_fanout: a.nth(5),
        getdata_batch_limit: a.nth(6),
        block_spacing: a.nth(7),
        received_timeout: a.nth(8),
        stall_timeout_initial: a.nth(9),
        stall_timeout_max: a.nth(10),
        staller_cooldown: a.nth(11),
    }
}

// Behind the settings stand the keys, with their number before them, and the clock.
pub fn opening_at(a: Place) -> Opening
    ensures { result ≡ opening_at a.entry.numbers.now a.entry.at }
{
    Opening {
        settings: settings_at(a),
        keys: row(a.on(13)),
        clock: a.nth(269),
    }
}

// The lists of `mark_requested` and `confirm_prefix_probe`, behind k plain arguments: words of hashes, and heights or seats.
pub fn lists_at<T: Number>(a: Place, k: u64) -> (Listed<u64, 1024>, Listed<T, 256>)
    requires { k < 1024 }
    ensures rooms { (result.0.room ≡ row_at (λ n. n) 1024 a.entry.numbers.now (on a.entry.at (k + 1))) × (result.1.room ≡ row_at T.of 256 a.entry.numbers.now (on (second_list k a.entry.numbers.now a.entry.at) 1)) }
    ensures lists { (take result.0.n result.0.room ≡ words_at k a.entry.numbers.now a.entry.at) × (take result.1.n result.1.room ≡ behind_words T.of k a.entry.numbers.now a.entry.at) }
    ensures lengths { (result.0.n ≤ 1024) × (result.1.n ≤ 256) }
{
    let n = a.nth(k);
    let first = a.on(k + 1);
    let second = first.on(n.min(1024));
    (list_at(n, first), list_at(second.get(), second.on(1)))
}

// `retain_owned_by` has one list: a flag for each seat.
pub fn flags_at(a: Place) -> [u64; 256]
    ensures { result ≡ flags_at a.entry.numbers.now a.entry.at }
{
    row(a.on(1))
}

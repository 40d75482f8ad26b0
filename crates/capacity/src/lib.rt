// SPECIFICATION 6.6: how much may be asked for. Counts and headrooms are any numbers; no sum is made that could wrap.
#![tactic(auto)]

ghost use Rattle.std.specs.Prelude.{◌≡◌, ◌+◌, leb};
ghost use Rattle.model.specs.Capacity.{peer_inflight, capacity_left};
ghost use Rattle.capacity.specs.OnNumbers.{batch_limit_by, byte_capacity_by, capacity_by, batch_says};

use model::{Fanout, Settings};

// `peer_inflight`
pub fn peer_inflight(b: Settings, f: Fanout) -> u64
    ensures { result ≡ peer_inflight b f }
{
    if f.engaged {
        let share = numbers::div_ceil(b.max_pending_blocks, numbers::greater(f.eligible, 1));
        return numbers::lesser(
            numbers::greater(share, b.fanout_peer_inflight),
            b.max_peer_inflight,
        );
    }
    b.max_peer_inflight
}

// Whether `more` is within the limit beside `total`. The Rust's sum saturates; here it is never made.
fn within(total: u64, more: u64, limit: u64) -> bool
    ensures { result ≡ leb (total + more) limit }
{
    if limit < total {
        return false;
    }
    more <= limit - total
}

// `capacity_left`
pub fn capacity_left(
    b: Settings,
    len: u64,
    total: u64,
    mean: u64,
    byte_headroom: u64,
    count_headroom: u64,
) -> bool
    ensures { result ≡ capacity_left b len total mean byte_headroom count_headroom }
{
    let bytes = within(total, mean, b.max_pending_bytes);
    (len < b.max_pending_blocks) & (bytes & ((mean <= byte_headroom) & (0 < count_headroom)))
}

// `batch_limit` on numbers
fn batch_limit(b: Settings, f: Fanout, owned: u64, len: u64, count_headroom: u64) -> u64
    ensures { result ≡ batch_limit_by b f owned len count_headroom }
{
    let share = peer_inflight(b, f).saturating_sub(owned);
    let blocks = b.max_pending_blocks.saturating_sub(len);
    numbers::lesser(
        numbers::lesser(b.getdata_batch_limit, share),
        numbers::lesser(blocks, count_headroom),
    )
}

// `byte_capacity` on numbers
fn byte_capacity(b: Settings, total: u64, byte_headroom: u64) -> u64
    ensures { result ≡ byte_capacity_by b total byte_headroom }
{
    numbers::lesser(b.max_pending_bytes.saturating_sub(total), byte_headroom)
}

// `compute_request_capacity` on numbers, a batch limit and a byte capacity: none when the limit is 0 or the capacity is under the mean.
pub fn compute_capacity(
    b: Settings,
    f: Fanout,
    owned: u64,
    len: u64,
    total: u64,
    mean: u64,
    byte_headroom: u64,
    count_headroom: u64,
) -> Option<(u64, u64)>
    ensures { batch_says result ≡ capacity_by b f owned len total mean byte_headroom count_headroom }
{
    let batch = batch_limit(b, f, owned, len, count_headroom);
    let bytes = byte_capacity(b, total, byte_headroom);
    if batch == 0 {
        return None;
    }
    if bytes < mean {
        return None;
    }
    Some((batch, bytes))
}

// The head in the 4,096 lent words: 512 words from 3584 on. Each group is read as the value that the definitions read there, and written back by
// one array and one copy. A contract speaks of `decode`, and asks only that the words are 4,096 and a place is in the head.
#![tactic(auto)]

ghost use Rattle.std.specs.Prelude.{◌≡◌, ◌∷◌, [], ◌+◌, ◌<◌, ◌≤◌, length};
ghost use Rattle.model.specs.Pace.{pace};
ghost use Rattle.model.specs.Layout.{decode, word, hash_at, settings_of, source_of, settings_words, source_word};
ghost use Rattle.model.specs.Places.{head_max_pending_blocks, head_fanout_eligible, head_front_mean, head_front_advance, head_stall_timeout};
ghost use Rattle.laws.specs.Tables.{with_words};
ghost use Rattle.layout.specs.Head.{fanout_of, fanout_list, pace_list};

use model::{Fanout, Hash, Pace, Settings, Words, at, head, sizes};

// ---- single words

pub fn word_of(words: &Words, k: usize) -> u64
    requires { k < 512 }
    ensures { result ≡ word k (decode words.now) }
{
    words[at::HEAD + k]
}

// Some words written at a place of the head.
pub fn store_at(words: &mut Words, k: usize, list: &[u64])
    requires { k + length list.now ≤ 512 }
    ensures { decode words.new ≡ with_words k list.now (decode words.old) }
{
    let a = at::HEAD + k;
    let e = a + list.len();
    column::copy_over(&mut words[a..e], list);
}

pub fn set_word(words: &mut Words, k: usize, value: u64)
    requires { k < 512 }
    ensures { decode words.new ≡ with_words k (value ∷ []) (decode words.old) }
{
    let l = [value];
    store_at(words, k, &l);
}

// `hash_at`
pub fn hash_of(words: &Words, k: usize) -> Hash
    requires { k + 4 ≤ 512 }
    ensures { result ≡ hash_at k (decode words.now) }
{
    let a = at::HEAD + k;
    Hash {
        a: words[a],
        b: words[a + 1],
        c: words[a + 2],
        d: words[a + 3],
    }
}

// ---- settings, fan-out, pace

pub fn load_settings(words: &Words) -> Settings
    ensures { result ≡ settings_of (decode words.now) }
{
    Settings {
        max_pending_blocks: words[at::MAX_PENDING_BLOCKS],
        max_pending_bytes: words[at::MAX_PENDING_BYTES],
        max_received_blocks: words[at::MAX_RECEIVED_BLOCKS],
        max_peer_inflight: words[at::MAX_PEER_INFLIGHT],
        fanout_peer_inflight: words[at::FANOUT_PEER_INFLIGHT],
        min_peers_for_fanout: words[at::MIN_PEERS_FOR_FANOUT],
        getdata_batch_limit: words[at::GETDATA_BATCH_LIMIT],
        block_spacing: words[at::BLOCK_SPACING],
        received_timeout: words[at::RECEIVED_TIMEOUT],
        stall_timeout_initial: words[at::STALL_TIMEOUT_INITIAL],
        stall_timeout_max: words[at::STALL_TIMEOUT_MAX],
        staller_cooldown: words[at::STALLER_COOLDOWN],
    }
}

fn settings_list(b: Settings) -> [u64; sizes::SETTINGS_WORDS]
    ensures { result ≡ settings_words b }
{
    [
        b.max_pending_blocks,
        b.max_pending_bytes,
        b.max_received_blocks,
        b.max_peer_inflight,
        b.fanout_peer_inflight,
        b.min_peers_for_fanout,
        b.getdata_batch_limit,
        b.block_spacing,
        b.received_timeout,
        b.stall_timeout_initial,
        b.stall_timeout_max,
        b.staller_cooldown,
    ]
}

pub fn store_settings(words: &mut Words, b: Settings)
    ensures { decode words.new ≡ with_words head_max_pending_blocks (settings_words b) (decode words.old) }
{
    let l = settings_list(b);
    store_at(words, head::MAX_PENDING_BLOCKS, &l);
}

pub fn load_fanout(words: &Words) -> Fanout
    ensures { result ≡ fanout_of (decode words.now) }
{
    let engaged = words[at::FANOUT_ENGAGED] == 1;
    Fanout {
        eligible: words[at::FANOUT_ELIGIBLE],
        engaged,
    }
}

pub fn store_fanout(words: &mut Words, f: Fanout)
    ensures { decode words.new ≡ with_words head_fanout_eligible (fanout_list f) (decode words.old) }
{
    let l = [f.eligible, u64::from(f.engaged)];
    store_at(words, head::FANOUT_ELIGIBLE, &l);
}

pub fn load_pace(words: &Words) -> Pace
    ensures { result ≡ pace (word head_front_mean (decode words.now)) (word head_front_advance (decode words.now)) (word head_stall_timeout (decode words.now)) }
{
    Pace {
        mean: words[at::FRONT_MEAN],
        advance: words[at::FRONT_ADVANCE],
        wait: words[at::STALL_TIMEOUT],
    }
}

pub fn store_pace(words: &mut Words, p: Pace)
    ensures { decode words.new ≡ with_words head_front_mean (pace_list p) (decode words.old) }
{
    let l = [p.mean, p.advance, p.wait];
    store_at(words, head::FRONT_MEAN, &l);
}

// ---- seats that may be missing

// `source_of`
fn source_of(s: u64) -> Option<u64>
    ensures { result ≡ source_of s }
{
    s.checked_sub(1)
}

// `source_word`
fn source_word(s: Option<u64>) -> u64
    requires { source_word s ≤ 256 }
    ensures { result ≡ source_word s }
{
    s.map_or(0, |seat| seat + 1)
}

// A seat at a place of the head.
pub fn load_source(words: &Words, k: usize) -> Option<u64>
    requires { k < 512 }
    ensures { result ≡ source_of (word k (decode words.now)) }
{
    source_of(word_of(words, k))
}

pub fn store_source(words: &mut Words, k: usize, s: Option<u64>)
    requires { (k < 512) × (source_word s ≤ 256) }
    ensures { decode words.new ≡ with_words k (source_word s ∷ []) (decode words.old) }
{
    set_word(words, k, source_word(s));
}

// A plan in its two lent lists, and the index over its hashes: one ask more at its end.
#![tactic(auto)]

ghost use Rattle.std.specs.Prelude.{◌≡◌, ◌∷◌, [], ◌+◌, ◌*◌, ◌≤◌, ◌<◌, length};
ghost use Rattle.model.specs.Numbers.{max_height};
ghost use Rattle.model.specs.Hash.{hash_words};
ghost use Rattle.listed.specs.Index.{Indexed};
ghost use Rattle.plan_lists.specs.Lists.{placed};

use model::{Hash, sizes};

// The four words of a hash at place n.
fn put_hash(hashes: &mut [u64], n: usize, h: Hash)
    requires { 4 * n + 4 ≤ length hashes.old }
    ensures { hashes.new ≡ placed (4 * n) (hash_words h) hashes.old }
{
    let k = sizes::HASH_WORDS * n;
    hashes[k] = h.a;
    hashes[k + 1] = h.b;
    hashes[k + 2] = h.c;
    hashes[k + 3] = h.d;
}

// An ask at the end of a plan of n. The lists go as three `&mut`, here and above: of a struct each function would have to promise, besides what it does,
// the ghost names and the lengths of all three.
pub fn put_ask(
    hashes: &mut [u64],
    heights: &mut [u32],
    index: &mut [u32],
    n: usize,
    h: Hash,
    height: u64,
)
    requires { Indexed n hashes.old index.old × ((4 * n + 4 ≤ length hashes.old) × ((n < length heights.old) × (height ≤ max_height))) }
    ensures { (hashes.new ≡ placed (4 * n) (hash_words h) hashes.old)
        × ((heights.new ≡ placed n (height ∷ []) heights.old) × Indexed (n + 1) hashes.new index.new) }
{
    put_hash(hashes, n, h);
    heights[n] = height as u32;
    listed::add(index, hashes, n);
}

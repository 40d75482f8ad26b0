// An index over a list of hashes, four words a hash: whether the list names a hash is a few looks, however long the list is.
// Its first words are the heads: for each bucket the last place of the list whose hash is in it, plus 1, and 0 for none. A link for each place
// follows: the place before it in its bucket, plus 1. Of a list that is longer than there are links, the rest is looked through. A list with an index of
// all of it is a `Listed`.
#![tactic(auto)]

ghost use Rattle.std.specs.Prelude.{◌≡◌, ◌+◌, ◌*◌, ◌/◌, ◌≤◌, false, length, take};
ghost use Rattle.model.specs.Lists.{any};
ghost use Rattle.model.specs.Hash.{hash, hashes_in, same};
ghost use Rattle.model.specs.Planning.{names};
ghost use Rattle.listed.specs.Index.{hash_at, bucket, linked, Sized, Zeros, Empty, Indexed};

use model::Hash;
use model::sizes::HASH_WORDS;

// The heads of an index.
pub const BUCKETS: usize = 1024;

// The greatest prime below `BUCKETS`: what is left of a division by it depends on every bit, so that hashes of which most bytes are alike spread too.
const SPREAD: u64 = 1021;

// ---- buckets

// `bucket`: the sum of all four words counts, so that it does not matter by which word hashes differ.
#[tactic(auto, unfolding(crate::specs::Index::bucket))]
fn bucket(h: Hash) -> usize
    ensures { result ≡ bucket h }
{
    let x = h.a.wrapping_add(h.b);
    let y = h.c.wrapping_add(h.d);
    (x.wrapping_add(y) % SPREAD) as usize
}

// The hash at a place of the list.
fn hash_at(list: &[u64], i: usize) -> Hash
    requires { 4 * i + 4 ≤ length list.now }
    ensures { result ≡ hash_at list.now i }
{
    let k = HASH_WORDS * i;
    Hash {
        a: list[k],
        b: list[k + 1],
        c: list[k + 2],
        d: list[k + 3],
    }
}

// The bucket of the hash at a place of the list.
fn bucket_at(list: &[u64], i: usize) -> usize
    requires { 4 * i + 4 ≤ length list.now }
    ensures { result ≡ bucket (hash_at list.now i) }
{
    bucket(hash_at(list, i))
}

// Whether the hash is at a place of the list.
fn is_at(list: &[u64], i: usize, h: Hash) -> bool
    requires { 4 * i + 4 ≤ length list.now }
    ensures { result ≡ same h (hash_at list.now i) }
{
    hash::equal(h, hash_at(list, i))
}

// `linked`: how many of n places have a link, in an index of so many words.
fn linked(n: usize, size: usize) -> usize
    requires { 1024 ≤ size }
    ensures { result ≡ linked n size }
{
    let links = size - BUCKETS;
    if n <= links {
        return n;
    }
    links
}

// ---- the index made

fn clear_heads(index: &mut [u32])
    requires { 1024 ≤ length index.old }
    ensures { Zeros 1024 index.new }
{
    index[..BUCKETS].fill(0);
}

// An index of no hash, whatever was in it.
pub fn clear(index: &mut [u32])
    requires { Sized index.old }
    ensures { Empty index.new }
{
    clear_heads(index);
}

// One hash more: that at place n of the list.
pub fn add(index: &mut [u32], list: &[u64], n: usize)
    requires { Indexed n list.now index.old × (4 * n + 4 ≤ length list.now) }
    ensures { Indexed (n + 1) list.now index.new }
{
    let links = index.len() - BUCKETS;
    if links <= n {
        return;
    }
    let b = bucket_at(list, n);
    index[BUCKETS + n] = index[b];
    index[b] = (n + 1) as u32;
}

fn add_all(index: &mut [u32], list: &[u64])
    requires { Empty index.old }
    ensures { Indexed (length list.now / 4) list.now index.new }
{
    let hashes = list.len() / HASH_WORDS;
    for i in 0..hashes {
        add(index, list, i);
    }
}

// The whole list, whatever was in the index.
pub fn index_list(index: &mut [u32], list: &[u64])
    requires { Sized index.old }
    ensures { Indexed (length list.now / 4) list.now index.new }
{
    clear(index);
    add_all(index, list);
}

// ---- the index asked

// Whether the hash is at one of the places that have a link: those of its bucket are looked at, the last first. Its words come as numbers: in the
// loop the proof needs their bounds, and a struct that goes through it brings none for its fields.
fn chained(index: &[u32], list: &[u64], n: usize, a: u64, b: u64, c: u64, d: u64) -> bool
    requires { Indexed n list.now index.now × (4 * n ≤ length list.now) }
    ensures { result ≡ any (same (hash a b c d)) (take (linked n (length index.now)) (hashes_in list.now)) }
{
    let h = Hash { a, b, c, d };
    let head = bucket(h);
    let mut j = index[head] as usize;
    while let Some(i) = j.checked_sub(1) {
        if is_at(list, i, h) {
            return true;
        }
        j = index[BUCKETS + i] as usize;
    }
    false
}

// The same for places that have none, from m on: it is at none before.
fn looked_through(list: &[u64], m: usize, n: usize, h: Hash) -> bool
    requires { (any (same h) (take m (hashes_in list.now)) ≡ false) × ((m ≤ n) × (4 * n ≤ length list.now)) }
    ensures { result ≡ any (same h) (take n (hashes_in list.now)) }
{
    for i in m..n {
        if is_at(list, i, h) {
            return true;
        }
    }
    false
}

// Whether the first n hashes of the list name the hash.
pub fn names_first(index: &[u32], list: &[u64], n: usize, h: Hash) -> bool
    requires { Indexed n list.now index.now × (4 * n ≤ length list.now) }
    ensures { result ≡ any (same h) (take n (hashes_in list.now)) }
{
    if chained(index, list, n, h.a, h.b, h.c, h.d) {
        return true;
    }
    let m = linked(n, index.len());
    looked_through(list, m, n, h)
}

// `names`: whether the list names the hash.
pub fn names(index: &[u32], list: &[u64], h: Hash) -> bool
    requires { Indexed (length list.now / 4) list.now index.now }
    ensures { result ≡ names list.now h }
{
    let n = list.len() / HASH_WORDS;
    names_first(index, list, n, h)
}

// ---- a list with its index

#[derive(Clone, Copy)]
pub struct Listed<'a> {
    pub hashes: &'a [u64],
    pub index: &'a [u32],
    ghost indexed: { Indexed (length hashes.now / 4) hashes.now index.now },
}

impl<'a> Listed<'a> {
    // The list with an index of it all, made in words that may have said anything.
    pub fn new(hashes: &'a [u64], index: &'a mut [u32]) -> Listed<'a>
        requires { Sized index.old }
        ensures { result.hashes.now ≡ hashes.now }
    {
        index_list(index, hashes);
        Listed { hashes, index }
    }

    // How many hashes there are.
    pub fn len(self) -> usize
        ensures { result ≡ length self.entry.hashes.now / 4 }
    {
        self.hashes.len() / HASH_WORDS
    }

    // `names`: whether the list names the hash.
    pub fn names(self, h: Hash) -> bool
        ensures { result ≡ names self.entry.hashes.now h }
    {
        names(self.index, self.hashes, h)
    }
}

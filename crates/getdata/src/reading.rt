// The payload of getdata, read into a list of hashes.
ghost use Rattle.std.specs.Prelude.{◌≡◌, ◌*◌, ◌≤◌, ◌<◌, eqb, length, get_or};
ghost use Rattle.model.specs.Hash.{hash_words, hashes_words};
ghost use Rattle.model.specs.Says.{number_says};
ghost use Rattle.model.specs.Getdata.{from_big_endian, count_width, count_of, shortest, entry_size, type_of, msg_witness_block, all_blocks, entry_hash, entry_hashes};
ghost use Rattle.model.specs.Getdata.{is_getdata, read_answer, read_left};

use crate::wire;
use model::{Refusal, sizes};

// A byte that is there, as a number.
fn byte(bytes: &[u8], at: usize) -> u64
    requires { at < length bytes.now }
    ensures { (result ≡ get_or bytes.now at 0) × (result < 256) }
{
    bytes[at] as u64
}

// 0 past the end.
fn byte_at(bytes: &[u8], at: usize) -> u64
    ensures { (result ≡ get_or bytes.now at 0) × (result < 256) }
{
    if bytes.len() <= at {
        return 0;
    }
    byte(bytes, at)
}

// How many bytes the count takes.
fn count_width(payload: &[u8]) -> usize
    ensures { (result ≡ count_width payload.now) × (result ≤ 3) }
{
    if byte_at(payload, 0) == wire::IN_TWO as u64 {
        return wire::IN_TWO_WIDTH;
    }
    1
}

fn count_of(payload: &[u8]) -> usize
    ensures { (result ≡ count_of payload.now) × (result < 65536) }
{
    let first = byte_at(payload, 0);
    if first == wire::IN_TWO as u64 {
        return (byte_at(payload, 1) + byte_at(payload, 2) * 256) as usize;
    }
    first as usize
}

// The count's form is the shortest.
fn is_shortest(payload: &[u8]) -> bool
    ensures { result ≡ shortest payload.now }
{
    let first = byte_at(payload, 0);
    if first == wire::IN_TWO as u64 {
        return wire::IN_TWO <= count_of(payload);
    }
    first < wire::IN_TWO as u64
}

// The type, the low byte first, is that of a block with its witness.
fn is_block(entry: &[u8]) -> bool
    requires { 4 ≤ length entry.now }
    ensures { result ≡ eqb (type_of entry.now) msg_witness_block }
{
    byte(entry, 0) + (byte(entry, 1) + (byte(entry, 2) + byte(entry, 3) * 256) * 256) * 256
        == wire::MSG_WITNESS_BLOCK
}

// Each of so many entries is of that type.
fn all_blocks(entries: &[u8], n: usize) -> bool
    requires { n * entry_size ≤ length entries.now }
    ensures { result ≡ all_blocks n entries.now }
{
    for i in 0..n {
        let at = wire::ENTRY_SIZE * i;
        if !is_block(&entries[at..]) {
            return false;
        }
    }
    true
}

// The payload is accepted: `is_getdata`. What follows the count is looked through as a part of the payload.
fn is_getdata(payload: &[u8]) -> bool
    ensures { result ≡ is_getdata payload.now }
{
    if !is_shortest(payload) {
        return false;
    }
    let n = count_of(payload);
    if wire::MAX_GETDATA < n {
        return false;
    }
    let start = count_width(payload);
    if payload.len() != start + n * wire::ENTRY_SIZE {
        return false;
    }
    all_blocks(&payload[start..], n)
}

// The number in eight bytes, the high one first.
fn word(bytes: &[u8]) -> u64
    requires { length bytes.now ≡ 8 }
    ensures { result ≡ from_big_endian 0 bytes.now }
{
    match bytes.as_array::<8>() {
        Some(eight) => u64::from_be_bytes(*eight),
        None => 0,
    }
}

// The four words of an entry's hash.
fn read_hash(entry: &[u8], hash: &mut [u64])
    requires { (entry_size ≤ length entry.now) × (length hash.old ≡ 4) }
    ensures { hash.new ≡ hash_words (entry_hash entry.now) }
{
    hash[0] = word(&entry[wire::FIRST..wire::SECOND]);
    hash[1] = word(&entry[wire::SECOND..wire::THIRD]);
    hash[2] = word(&entry[wire::THIRD..wire::FOURTH]);
    hash[3] = word(&entry[wire::FOURTH..wire::ENTRY_SIZE]);
}

// The entry reader: it is given what follows the count, and a place of the list for each entry.
fn read_entries(entries: &[u8], hashes: &mut [u64], n: usize)
    requires { (n * entry_size ≤ length entries.now) × (length hashes.old ≡ n * 4) }
    ensures { hashes.new ≡ hashes_words (entry_hashes n entries.now) }
{
    for i in 0..n {
        let at = wire::ENTRY_SIZE * i;
        let w = sizes::HASH_WORDS * i;
        let end = w + sizes::HASH_WORDS;
        read_hash(&entries[at..], &mut hashes[w..end]);
    }
}

// Reads a payload's hashes, four words each, to the beginning of the list. It answers the number of hashes.
// Refused by 11 where the payload is not accepted, then by 10 where the list is too short for its hashes.
pub fn read(payload: &[u8], hashes: &mut [u64]) -> Result<u64, Refusal>
    ensures { (number_says result ≡ read_answer payload.now hashes.old) × (hashes.new ≡ read_left payload.now hashes.old) }
{
    if !is_getdata(payload) {
        return Err(Refusal::Payload);
    }
    let n = count_of(payload);
    let end = n * sizes::HASH_WORDS;
    if hashes.len() < end {
        return Err(Refusal::ShortOutput);
    }
    let start = count_width(payload);
    read_entries(&payload[start..], &mut hashes[..end], n);
    Ok(n as u64)
}

// A list of hashes, written as the payload of getdata.
ghost use Rattle.std.specs.Prelude.{◌≡◌, ◌*◌, ◌≤◌, length};
ghost use Rattle.model.specs.Hash.{hash, hashes_in};
ghost use Rattle.model.specs.Says.{number_says};
ghost use Rattle.model.specs.Getdata.{max_getdata, little_endian, big_endian, compact_size, entry_size, entry_bytes, entries_bytes, write_answer, write_left};

use crate::wire;
use model::{Refusal, sizes};

// A number in all of the lent bytes, the low one first.
fn put_little_endian(out: &mut [u8], number: u64)
    ensures { out.new ≡ little_endian (length out.old) number }
{
    let mut rest = number;
    for byte in out.iter_mut() {
        *byte = (rest % 256) as u8;
        rest /= 256;
    }
}

// How many bytes a count takes.
fn compact_size_width(n: usize) -> usize
    ensures { result ≡ length (compact_size n) }
{
    if wire::IN_TWO <= n {
        return wire::IN_TWO_WIDTH;
    }
    1
}

fn put_count(out: &mut [u8], n: usize)
    requires { length out.old ≡ length (compact_size n) }
    ensures { out.new ≡ compact_size n }
{
    if n < wire::IN_TWO {
        out[0] = n as u8;
    } else {
        out[0] = wire::IN_TWO as u8;
        put_little_endian(&mut out[1..wire::IN_TWO_WIDTH], n as u64);
    }
}

// A word, the high byte first: compiled to one store.
fn put_word(out: &mut [u8], word: u64)
    requires { length out.old ≡ 8 }
    ensures { out.new ≡ big_endian 8 word }
{
    out.copy_from_slice(&word.to_be_bytes());
}

fn put_entry(out: &mut [u8], a: u64, b: u64, c: u64, d: u64)
    requires { length out.old ≡ entry_size }
    ensures { out.new ≡ entry_bytes (hash a b c d) }
{
    put_little_endian(&mut out[0..wire::FIRST], wire::MSG_WITNESS_BLOCK);
    put_word(&mut out[wire::FIRST..wire::SECOND], a);
    put_word(&mut out[wire::SECOND..wire::THIRD], b);
    put_word(&mut out[wire::THIRD..wire::FOURTH], c);
    put_word(&mut out[wire::FOURTH..wire::ENTRY_SIZE], d);
}

fn put_entries(out: &mut [u8], hashes: &[u64])
    requires { length out.old ≡ length (hashes_in hashes.now) * entry_size }
    ensures { out.new ≡ entries_bytes (hashes_in hashes.now) }
{
    for i in 0..hashes.len() / sizes::HASH_WORDS {
        let at = wire::ENTRY_SIZE * i;
        let end = at + wire::ENTRY_SIZE;
        let w = sizes::HASH_WORDS * i;
        put_entry(
            &mut out[at..end],
            hashes[w],
            hashes[w + 1],
            hashes[w + 2],
            hashes[w + 3],
        );
    }
}

// Writes the payload that asks for the listed blocks, four words a hash (what is past the last whole one is not read). It answers the number of bytes.
// Refused by 8 where the list has more than 256 hashes, then by 10 where the lent bytes are too few.
pub fn write(hashes: &[u64], out: &mut [u8]) -> Result<u64, Refusal>
    ensures { (number_says result ≡ write_answer (hashes_in hashes.now) out.old) × (out.new ≡ write_left (hashes_in hashes.now) out.old) }
{
    let n = hashes.len() / sizes::HASH_WORDS;
    if wire::MAX_GETDATA < n {
        return Err(Refusal::Many);
    }
    let start = compact_size_width(n);
    let end = start + wire::ENTRY_SIZE * n;
    if out.len() < end {
        return Err(Refusal::ShortOutput);
    }
    put_count(&mut out[..start], n);
    put_entries(&mut out[start..end], hashes);
    Ok(end as u64)
}

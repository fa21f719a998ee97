// Numbers and bits in lent bytes. A number is written highest byte first. Bit i of the bitmap at `base` is bit i % 8, the lowest is 0,
// of byte base + i / 8. Each function asks that what it reads or writes lies within the bytes.
#![tactic(auto)]

ghost use Rattle.std.specs.Prelude.{◌≡◌, ◌+◌, ◌-◌, ◌*◌, ◌/◌, ◌%◌, ◌^◌, ◌≤◌, ◌<◌, ℕ, length, drop, get_or, eqb, true, not, sum_by};
ghost use Rattle.std.specs.List.{list_all, prefix_len};
ghost use lib.Count.{ones};
ghost use Rattle.base.specs.Loops.{first_from, count as count_of};
ghost use Rattle.memory.specs.Bytes.{number_at, put_number, zeros, fulls};
ghost use Rattle.memory.specs.Bits.{has_bit, packed, bit_set, put_bit, set_bit, clear_bit};
ghost use Rattle.memory.specs.inner.Words.{put_low, word_set};

use std::array;

// The bits of a byte.
const BITS: usize = 8;

// The bytes of a number or a word, and the bits of a word.
const WIDTH: usize = 8;

const WORD: usize = WIDTH * BITS;

// The bytes that are tested for 0 at once: many while nothing is found, then few.
const BLOCK: usize = 256;

const CHUNK: usize = 32;

// The 8 bytes from `at` on.
fn bytes_at(rec: &[u8], at: usize) -> [u8; WIDTH]
    requires { at + 8 ≤ length rec.now }
    ensures { (j : ℕ) → j < 8 → get_or result j 0 ≡ get_or rec.now (at + j) 0 }
{
    array::from_fn(|i| rec[at + i])
}

// The number in the 8 bytes from `at` on.
pub fn number(rec: &[u8], at: usize) -> u64
    requires { at + 8 ≤ length rec.now }
    ensures { result ≡ number_at rec.now at 8 }
{
    u64::from_be_bytes(bytes_at(rec, at))
}

// The 8 bytes from `at` on as one number, the lowest byte first: its bit i is bit i of the bitmap at `at`.
pub fn word(rec: &[u8], at: usize) -> u64
    requires { at + 8 ≤ length rec.now }
    ensures { result ≡ packed 64 (bit_set rec.now at) }
{
    u64::from_le_bytes(bytes_at(rec, at))
}

// Whether the 8 bytes from `at` on are all 0.
pub fn zero_word(rec: &[u8], at: usize) -> bool
    requires { at + 8 ≤ length rec.now }
    ensures { result ≡ zeros rec.now at 8 }
{
    word(rec, at) == 0
}

// Writes a number to the 8 bytes from `at` on.
pub fn put_number(rec: &mut [u8], at: usize, n: u64)
    requires { at + 8 ≤ length rec.old }
    ensures { rec.new ≡ put_number rec.old at 8 n }
{
    rec[at..at + WIDTH].copy_from_slice(&n.to_be_bytes());
}

// Whether bit `i` of the bitmap at `base` is set.
pub fn test_bit(rec: &[u8], base: usize, i: usize) -> bool
    requires { base + i / 8 < length rec.now }
    ensures { result ≡ bit_set rec.now base i }
{
    (rec[base + i / BITS] >> (i % BITS)) % 2 == 1
}

// Writes a word to the 8 bytes from `at` on, the lowest byte first.
fn put_word(rec: &mut [u8], at: usize, n: u64)
    requires { at + 8 ≤ length rec.old }
    ensures { rec.new ≡ put_low rec.old at 8 n }
{
    rec[at..at + WIDTH].copy_from_slice(&n.to_le_bytes());
}

// Makes bit `i` of the bitmap at `base`, whose words lie within the bytes, `b`. A word is read and written as one, so that it can be read again at once.
fn put_bit(rec: &mut [u8], base: usize, i: usize, b: bool)
    requires { base + i / 64 * 8 + 8 ≤ length rec.old }
    ensures { rec.new ≡ put_bit rec.old base i b }
{
    let at = base + i / WORD * WIDTH;
    let x = word(rec, at);
    let bit = 1u64 << (i % WORD);
    put_word(rec, at, if b { x | bit } else { x & !bit });
}

// Sets bit `i` of the bitmap at `base`, whose words lie within the bytes.
pub fn set_bit(rec: &mut [u8], base: usize, i: usize)
    requires { base + i / 64 * 8 + 8 ≤ length rec.old }
    ensures { rec.new ≡ set_bit rec.old base i }
{
    put_bit(rec, base, i, true);
}

// Clears bit `i` of the bitmap at `base`, whose words lie within the bytes.
pub fn clear_bit(rec: &mut [u8], base: usize, i: usize)
    requires { base + i / 64 * 8 + 8 ≤ length rec.old }
    ensures { rec.new ≡ clear_bit rec.old base i }
{
    put_bit(rec, base, i, false);
}

// A bit of a word that was cleared, and whether it was the last.
#[derive(Clone, Copy, Debug, PartialEq, Eq)]
pub struct Cleared {
    pub bit: usize,
    pub last: bool,
}

// Clears the first set bit of word `w` of the bitmap at `base`, of which one is set.
pub fn clear_first(rec: &mut [u8], base: usize, w: usize) -> Cleared
    requires { (base + w * 8 + 8 ≤ length rec.old) × (word_set rec.old base w ≡ true) }
    ensures bit { result.bit ≡ first_from 64 0 (λ j. bit_set rec.old base (w * 64 + j)) }
    ensures cleared { rec.new ≡ clear_bit rec.old base (w * 64 + result.bit) }
    ensures last { result.last ≡ not (word_set rec.new base w) }
{
    let at = base + w * WIDTH;
    let x = word(rec, at);
    let z = x.trailing_zeros() as usize;
    let rest = x - (1u64 << z);
    put_word(rec, at, rest);
    Cleared {
        bit: z,
        last: rest == 0,
    }
}

// Whether all bytes are 0, by the or of all of them: with no early exit the loop becomes vector instructions.
fn zero_run(bytes: &[u8]) -> bool
    ensures { result ≡ list_all (λ x. eqb x 0) bytes.now }
{
    bytes.iter().fold(0, |or, x| or | *x) == 0
}

// Where the search for a byte that is not 0 goes on: after the runs of N bytes at the start that are all 0.
fn skip_runs<const N: usize>(bytes: &[u8]) -> usize
    requires { (0 < N) × (N ≤ 256) }
    ensures within { result ≤ length bytes.now }
    ensures same { prefix_len (λ x. eqb x 0) bytes.now ≡ result + prefix_len (λ x. eqb x 0) (drop result bytes.now) }
{
    let (runs, _) = bytes.as_chunks::<N>();
    let has_byte = |run: &[u8; N]| -> bool
        ensures { result ≡ not (list_all (λ x. eqb x 0) run.now) }
    { !zero_run(&run[..]) };
    runs.iter().position(has_byte).unwrap_or(runs.len()) * N
}

// Where that search goes on after blocks, chunks and words that are all 0. A chunk comes first: often the next byte is near.
fn skip_zeros(bytes: &[u8]) -> usize
    ensures within { result ≤ length bytes.now }
    ensures same { prefix_len (λ x. eqb x 0) bytes.now ≡ result + prefix_len (λ x. eqb x 0) (drop result bytes.now) }
{
    if CHUNK <= bytes.len() && !zero_run(&bytes[..CHUNK]) {
        return skip_runs::<WIDTH>(bytes);
    }
    let block = skip_runs::<BLOCK>(bytes);
    let chunk = block + skip_runs::<CHUNK>(&bytes[block..]);
    chunk + skip_runs::<WIDTH>(&bytes[chunk..])
}

// The first byte that is not 0, else the count of the bytes.
fn first_byte(bytes: &[u8]) -> usize
    ensures within { result ≤ length bytes.now }
    ensures first { result ≡ prefix_len (λ x. eqb x 0) bytes.now }
{
    let at = skip_zeros(bytes);
    let rest = &bytes[at..];
    at + rest.iter().position(|x| *x != 0).unwrap_or(rest.len())
}

// Whether the `n` bytes from `at` on are all 255: word by word, then the bytes that are left.
// By words: with an and over all bytes the test of an empty record made a tenth more instructions.
pub fn full_run(rec: &[u8], at: usize, n: usize) -> bool
    requires { at + n ≤ length rec.now }
    ensures { result ≡ fulls rec.now at n }
{
    let (words, rest) = rec[at..at + n].as_chunks::<WIDTH>();
    words.iter().all(|x| u64::from_le_bytes(*x) == u64::MAX) && rest.iter().all(|x| *x == u8::MAX)
}

// The first set bit of a byte at or after `from`, else 8.
fn first_in_byte(x: u8, from: usize) -> usize
    requires { from < 8 }
    ensures within { result ≤ 8 }
    ensures first { result ≡ first_from (8 - from) from (has_bit x) }
{
    let rest = x >> from;
    if rest == 0 {
        return BITS;
    }
    from + rest.trailing_zeros() as usize
}

// The first set bit of the bitmap, else its count of bits.
fn first_in_bytes(bytes: &[u8]) -> usize
    requires { length bytes.now * 8 < 2 ^ 64 }
    ensures within { result ≤ length bytes.now * 8 }
    ensures first { result ≡ first_from (length bytes.now * 8) 0 (bit_set bytes.now 0) }
{
    let at = first_byte(bytes);
    if at == bytes.len() {
        return at * BITS;
    }
    at * BITS + first_in_byte(bytes[at], 0)
}

// The first set bit at or after `from` of the bitmap of `count` bits at `base`, else `count`, where a search goes on or ends. The bitmap is whole bytes.
pub fn first_bit(rec: &[u8], base: usize, from: usize, count: usize) -> usize
    requires { (from ≤ count) × (count % 8 ≡ 0) × (base + count / 8 ≤ length rec.now) }
    ensures { result ≡ first_from (count - from) from (bit_set rec.now base) }
{
    if from == count {
        return count;
    }
    let bytes = &rec[base..base + count / BITS];
    let b = from / BITS;
    let here = first_in_byte(bytes[b], from % BITS);
    if here < BITS {
        return b * BITS + here;
    }
    (b + 1) * BITS + first_in_bytes(&bytes[b + 1..])
}

// How many bits of the bytes, at most a chunk, are set.
fn count_chunk(bytes: &[u8]) -> usize
    requires { length bytes.now ≤ 32 }
    ensures { result ≡ sum_by ones bytes.now }
{
    bytes.iter().map(|x| x.count_ones()).sum::<u32>() as usize
}

// How many bits of the bitmap of `count` bits at `base` are set. The bitmap is whole bytes. Bytes that are 0 are skipped.
// A `while` that goes from byte to byte: a `for` over blocks and chunks made half as many instructions more on an empty record.
pub fn count_bits(rec: &[u8], base: usize, count: usize) -> usize
    requires { (count % 8 ≡ 0) × (base + count / 8 ≤ length rec.now) }
    ensures { result ≡ count_of count (bit_set rec.now base) }
{
    let mut n = 0;
    let mut rest = &rec[base..base + count / BITS];
    while !rest.is_empty() {
        let found = &rest[first_byte(rest)..];
        let (chunk, after) = found.split_at(CHUNK.min(found.len()));
        n += count_chunk(chunk);
        rest = after;
    }
    n
}

// The checksum of a slice of bytes, by additions, comparisons, subtractions and shifts only.
#![tactic(auto)]

ghost use Rattle.std.specs.Prelude.{◌≡◌, ◌+◌, ◌*◌, ◌%◌, ◌<◌, ◌≤◌, length};
ghost use Rattle.checksum.specs.Checksum.{checksum_of, sum_a, sum_b};

mod eight;
mod reduce;

// How many bytes are added up before the sums are reduced: neither can pass 32 bits in so few.
const CHUNK: usize = 2048;
// For fewer bytes rows do not pay.
const SHORT: usize = 32;

// The two running sums.
#[derive(Clone, Copy)]
struct Sums {
    a: u32,
    b: u32,
}

// The checksum of some bytes. Compiled once and not into its callers, where `.ci/checksum` does not look at its instructions.
#[inline(never)]
pub fn checksum_of(s: &[u8]) -> u32
    ensures { result ≡ checksum_of s.now }
{
    if s.len() < SHORT {
        return combined(after_bytes(s, 1, 0));
    }
    combined(after_chunks(s))
}

// The checksum of bytes with these sums: the second above the first.
fn combined(sums: Sums) -> u32
    requires { (sums.a < 65535) × (sums.b < 65535) }
    ensures { result ≡ sums.b * 65536 + sums.a }
{
    (sums.b << 16) + sums.a
}

// The sums after all bytes, chunk after chunk. Compiled by itself, so that few bytes wait for no register to be saved. A chunk's end is found
// here and not by the library's `chunks`: every operation that this crate's code goes through stands in it, where `.ci/checksum` looks.
#[inline(never)]
fn after_chunks(s: &[u8]) -> Sums
    ensures first { result.a ≡ sum_a 1 s.now }
    ensures second { result.b ≡ sum_b 1 0 s.now }
{
    let mut sums = Sums { a: 1, b: 0 };
    let mut i: usize = 0;
    while i < s.len() {
        let e = chunk_end(i, s.len());
        sums = after_chunk(&s[i..e], sums);
        i = e;
    }
    sums
}

// Where the chunk that begins at i ends, in a slice of that length.
fn chunk_end(i: usize, length: usize) -> usize
    requires { i < length }
    ensures { (i < result) × (result ≤ length) × (result ≤ i + 2048) }
{
    if CHUNK < length - i {
        i + CHUNK
    } else {
        length
    }
}

// The sums after one chunk of bytes, from sums that are reduced. Row after row, x has eight first sums, of the bytes, and y eight second
// sums, of those in x; the first sum so far goes to the first place. Rows are split off by a range, which calls nothing. Compiled into its
// caller the loop is not unrolled, and takes 1.2 times as long.
#[inline(never)]
fn after_chunk(s: &[u8], sums: Sums) -> Sums
    requires { (length s.now ≤ 2048) × (sums.a < 65535) × (sums.b < 65535) }
    ensures first { result.a ≡ sum_a sums.a s.now }
    ensures second { result.b ≡ sum_b sums.a sums.b s.now }
{
    let mut x = eight::first_only(sums.a);
    let mut y = eight::first_only(0);
    let mut rest = s;
    while 8 <= rest.len() {
        x = x + eight::bytes_of(&rest[..8]);
        y = y + x;
        rest = &rest[8..];
    }
    after_bytes(rest, eight::total(x), eight::second_sum(x, y, sums.b))
}

// The reduced sums after a few bytes, from sums that need not be reduced: the first is at most 65,534 and 2,048 bytes of 255.
fn after_bytes(s: &[u8], a: u32, b: u32) -> Sums
    requires { (length s.now < 32) × (a ≤ 587774) × (b ≤ 2147483647) }
    ensures first { result.a ≡ sum_a (a % 65535) s.now }
    ensures second { result.b ≡ sum_b (a % 65535) (b % 65535) s.now }
{
    let mut x = a;
    let mut y = b;
    for byte in s {
        x += *byte as u32;
        y += x;
    }
    Sums {
        a: reduce::reduce(x),
        b: reduce::reduce(y),
    }
}

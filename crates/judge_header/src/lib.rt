// A header judged: the index of its first slot, if it is the writer's.
#![tactic(auto)]

ghost use Rattle.std.specs.Prelude.{◌≡◌, length};
ghost use Rattle.slices.specs.Same.{same};
ghost use Rattle.record.specs.Layout.{header_size, header_bytes};
ghost use Rattle.record.specs.Meaning.{header_first, is_header, read_header};
ghost use Rattle.record.specs.Judged.{header_answer};

use locate::{
    FIRST_AT, FIRST_HEADER_SIZE, FIRST_INDEX, FIRST_SEAL_AT, gives_first, header_size, is_first,
};
use record::Shape;

// The only index of a first slot that a header of this shape can give.
fn first_in(s: &[u8], shape: Shape) -> u64
    requires { length s.now ≡ header_size shape }
    ensures { result ≡ header_first shape s.now }
{
    if gives_first(shape) {
        return spell::number_in(&s[FIRST_AT..FIRST_SEAL_AT]);
    }
    FIRST_INDEX
}

// Whether the header is the writer's for this shape, replica and index of the first slot, byte for byte. The writer's is written to `w`.
fn is_written(s: &[u8], w: &mut [u8], shape: Shape, replica: usize, first: u32) -> bool
    requires { length w.old ≡ header_size shape }
    ensures { result ≡ same s.now (header_bytes shape replica first) }
{
    write_header::write_header(w, shape, replica, first);
    copy::same_bytes(s, w)
}

// Whether the header is the writer's for this shape, replica and index of the first slot, and that is one.
fn is_header(s: &[u8], shape: Shape, replica: usize, first: u64) -> bool
    ensures { result ≡ is_header shape replica first s.now }
{
    if !is_first(shape, first) {
        return false;
    }
    let e = header_size(shape);
    let mut w = [0u8; FIRST_HEADER_SIZE];
    is_written(s, &mut w[0..e], shape, replica, first as u32)
}

// Judges the header of a replica: the index of the first slot, if the header is the writer's.
pub fn judge_header(s: &[u8], shape: Shape, replica: usize) -> Option<u32>
    ensures { result ≡ header_answer (read_header shape replica s.now) }
{
    if s.len() != header_size(shape) {
        return None;
    }
    let first = first_in(s, shape);
    if is_header(s, shape, replica, first) {
        return Some(first as u32);
    }
    None
}

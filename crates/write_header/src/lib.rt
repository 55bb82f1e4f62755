// Headers written.
#![tactic(auto)]

ghost use Rattle.std.specs.Prelude.{◌≤◌, ◌≡◌, length, take};
ghost use Rattle.slices.specs.Parts.{spliced};
ghost use Rattle.record.specs.Layout.{header_word, header_size, header_bytes};
ghost use Rattle.record.specs.Seal.{header_front};

use locate::{
    EDITION_AT, FIRST_AT, FIRST_SEAL_AT, HEADER_SEAL_AT, NUMBER_WIDTH, REPLICA_AT, REPLICAS_AT,
    SLOTS_AT, SMALL_WIDTH, gives_first, header_size, is_witness,
};
use record::Shape;
use write::put_seal;

// Writes the word that a header begins with: a card's, or a witness's (document 02, Seven).
fn put_word(s: &mut [u8], shape: Shape, replica: usize)
    requires { 16 ≤ length s.old }
    ensures { s.new ≡ spliced s.old 0 (header_word shape replica) }
{
    if is_witness(shape, replica) {
        copy::put_bytes(s, 0, b"wits");
        return;
    }
    copy::put_bytes(s, 0, b"rope");
}

// Writes what a header begins with: its word, the edition, the replica, n and m.
fn put_front(s: &mut [u8], shape: Shape, replica: usize)
    requires { 16 ≤ length s.old }
    ensures { take 16 s.new ≡ header_front shape replica }
{
    put_word(s, shape, replica);
    spell::put_number(s, EDITION_AT, SMALL_WIDTH, shape.edition as u64);
    spell::put_number(s, REPLICA_AT, SMALL_WIDTH, replica as u64);
    spell::put_number(s, REPLICAS_AT, SMALL_WIDTH, shape.n as u64);
    spell::put_number(s, SLOTS_AT, SMALL_WIDTH, shape.m as u64);
}

// Writes the header of replica `replica` of a cluster of this shape, whose first slot has index `first`.
pub fn write_header(s: &mut [u8], shape: Shape, replica: usize, first: u32)
    requires { length s.old ≡ header_size shape }
    ensures { s.new ≡ header_bytes shape replica first }
{
    put_front(s, shape, replica);
    if gives_first(shape) {
        spell::put_number(s, FIRST_AT, NUMBER_WIDTH, first as u64);
        put_seal(s, FIRST_SEAL_AT);
        return;
    }
    put_seal(s, HEADER_SEAL_AT);
}

// Writes the header of replica `replica` of a cluster of this shape, whose first slot has index `first`, at the image's beginning.
pub fn put_header(image: &mut [u8], shape: Shape, replica: usize, first: u32)
    requires { header_size shape ≤ length image.old }
    ensures { image.new ≡ spliced image.old 0 (header_bytes shape replica first) }
{
    let e = header_size(shape);
    write_header(&mut image[0..e], shape, replica, first);
}

// Where things stand on a card and on a witness: sizes and offsets, said once for all code.
// In bytes. Replicas and slots count from 0.
#![tactic(auto)]

ghost use Rattle.std.specs.Prelude.{suc, ◌+◌, ◌-◌, ◌<◌, ◌≤◌, ◌≡◌, false, ◌&&◌, leb};
ghost use Rattle.record.specs.Layout.{is_witness, gives_first, header_size};
ghost use Rattle.record.specs.Meaning.{is_first};
ghost use Rattle.image.specs.Image.{index, entries_size, image_size, record_at, entry_at};
ghost use Rattle.image.specs.Cluster.{image_at};
ghost use Rattle.image.specs.Fits.{ImageFits};

use record::Shape;

// The editions. A header of the new one gives the index of the first slot (document 02, Six).
pub const OLD_EDITION: usize = 1;

pub const NEW_EDITION: usize = 2;

// Document 01's head, line and cell. A header that gives the first index is the largest.
pub const HEADER_SIZE: usize = 28;

pub const FIRST_HEADER_SIZE: usize = 39;

pub const RECORD_SIZE: usize = 34;

pub const ENTRY_SIZE: usize = 240;

// A blank record is so many spaces, and a newline.
pub const BLANK_SIZE: usize = 33;

// A number in a header is 3 bytes wide; an epoch, an index and a checksum are 11; a payload's length is 4.
pub const SMALL_WIDTH: usize = 3;

pub const NUMBER_WIDTH: usize = 11;

pub const LENGTH_WIDTH: usize = 4;

// A seal ends what it stands in: the checksum of all before it, and a newline.
pub const SEAL_SIZE: usize = 12;

// In a header, behind its word: edition, replica, n, m, and the seal. The first index, where it is given, stands before the seal.
pub const EDITION_AT: usize = 4;

pub const REPLICA_AT: usize = 7;

pub const REPLICAS_AT: usize = 10;

pub const SLOTS_AT: usize = 13;

pub const HEADER_SEAL_AT: usize = 16;

pub const FIRST_AT: usize = 16;

pub const FIRST_SEAL_AT: usize = 27;

// In a record and in an entry: the epoch, then the index. In a record the seal follows; in an entry the payload's length, the payload and
// the seal behind it.
pub const INDEX_AT: usize = 11;

pub const FRONT_SIZE: usize = 22;

pub const PAYLOAD_AT: usize = 26;

// A payload has at most so many bytes.
pub const MAX_PAYLOAD: usize = 200;

// The first slot of a log of the old edition has this index, and no slot of any log has a higher one than the last.
pub const FIRST_INDEX: u64 = 1;

pub const LAST_INDEX: u64 = 4294967295;

// A set of replicas is a word of so many bits.
pub const SET_BITS: usize = 32;

// Whether replica `replica` (from 1) is a witness, which stores records only (document 02, Seven). No number but a replica's is one.
#[tactic(auto, using(record::proofs::WitnessLaws::witness_zero, record::proofs::WitnessLaws::witness_high, record::proofs::WitnessLaws::witness_bit))]
pub fn is_witness(shape: Shape, replica: usize) -> bool
    ensures { result ≡ is_witness shape replica }
{
    1 <= replica && replica <= SET_BITS && (shape.witnesses >> (replica - 1)) & 1 == 1
}

// Whether a header of this shape gives the index of the first slot.
#[tactic(auto, unfolding(record::specs::Layout::gives_first))]
pub fn gives_first(shape: Shape) -> bool
    ensures { result ≡ gives_first shape }
{
    shape.edition == NEW_EDITION
}

// How many bytes the header of an image of this shape has.
#[tactic(auto, unfolding(record::specs::Layout::header_size))]
pub fn header_size(shape: Shape) -> usize
    ensures { result ≡ header_size shape }
{
    if gives_first(shape) {
        FIRST_HEADER_SIZE
    } else {
        HEADER_SIZE
    }
}

// Whether a log of m slots may begin at that index: not at 0, and its last index is at most LAST_INDEX.
fn has_room(m: usize, first: u64) -> bool
    ensures { result ≡ (leb 1 first && leb (first + (m - 1)) 4294967295) }
{
    1 <= first && first <= LAST_INDEX && m as u64 <= LAST_INDEX - first + 1
}

// Whether a log may begin at that index. In the old edition it begins at 1.
#[tactic(auto, unfolding(record::specs::Meaning::is_first))]
pub fn is_first(shape: Shape, first: u64) -> bool
    ensures { result ≡ is_first shape first }
{
    if gives_first(shape) {
        has_room(shape.m, first)
    } else {
        first == FIRST_INDEX
    }
}

// How many bytes the entries of replica `replica` (from 1) have. A witness has none.
#[tactic(auto, unfolding(image::specs::Image::entries_size))]
fn entries_size(shape: Shape, replica: usize) -> usize
    requires { shape.m ≤ 64 }
    ensures { result ≡ entries_size shape replica }
{
    if is_witness(shape, replica) {
        0
    } else {
        ENTRY_SIZE * shape.m
    }
}

// How many bytes the image of replica `replica` (from 1) has.
#[tactic(auto, using(record::proofs::LayoutLaws::header_size_high, image::proofs::DecodeLaws::entries_most), unfolding(image::specs::Image::image_size))]
pub fn image_size(shape: Shape, replica: usize) -> usize
    requires { shape.m ≤ 64 }
    ensures { result ≡ image_size shape replica }
{
    header_size(shape) + RECORD_SIZE * shape.m + entries_size(shape, replica)
}

// Where the record of slot k begins in its image.
#[tactic(auto, using(record::proofs::LayoutLaws::header_size_high), unfolding(image::specs::Image::record_at))]
pub fn record_at(shape: Shape, k: usize) -> usize
    requires { k ≤ 64 }
    ensures { result ≡ record_at shape k }
{
    header_size(shape) + RECORD_SIZE * k
}

// Where the entry of slot k begins in its image, a card's.
#[tactic(auto, using(record::proofs::LayoutLaws::header_size_high), unfolding(image::specs::Image::entry_at))]
pub fn entry_at(shape: Shape, k: usize) -> usize
    requires { (shape.m ≤ 64) × (k ≤ 64) }
    ensures { result ≡ entry_at shape k }
{
    header_size(shape) + RECORD_SIZE * shape.m + ENTRY_SIZE * k
}

// Where the image of replica c begins in its cluster; of n, where the cluster ends.
pub fn image_at(shape: Shape, c: usize) -> usize
    requires { (shape.m ≤ 64) × (image_at shape c ≤ 18446744073709551615) }
    ensures { result ≡ image_at shape c }
{
    let mut at: usize = 0;
    for d in 0..c {
        at += image_size(shape, d + 1);
    }
    at
}

// Where the record of slot k of replica c begins in the cluster.
pub fn record_in(shape: Shape, c: usize, k: usize) -> usize
    requires { (shape.m ≤ 64) × (k < shape.m) × ImageFits shape 18446744073709551615 c }
    ensures { result ≡ image_at shape c + record_at shape k }
{
    image_at(shape, c) + record_at(shape, k)
}

// Where the entry of slot k of replica c, a card, begins in the cluster.
pub fn entry_in(shape: Shape, c: usize, k: usize) -> usize
    requires { (shape.m ≤ 64) × (is_witness shape (suc c) ≡ false) × (k < shape.m) × ImageFits shape 18446744073709551615 c }
    ensures { result ≡ image_at shape c + entry_at shape k }
{
    image_at(shape, c) + entry_at(shape, k)
}

// The index of slot k, of a log whose first slot has index `first`.
#[tactic(auto, unfolding(image::specs::Image::index))]
pub fn index_of(first: u32, k: usize) -> u64
    requires { k ≤ 64 }
    ensures { result ≡ index first k }
{
    first as u64 + k as u64
}

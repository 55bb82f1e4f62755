// The calls about a checksum, a column or a header, for any lent bytes.
#![tactic(auto)]

ghost use Rattle.call_pieces.specs.Pieces.{ChecksumCall, WriteNumberCall, ReadColumnCall, WriteHeaderCall, JudgeHeaderCall};

use column::ColumnState;
use image::refusal::Refusal;
use locate::header_size;
use record::Shape;

// A wider column can hold more than 64 bits, and is not read.
const WIDEST_COLUMN: usize = 19;

// What a writer answers where it refuses nothing.
pub const WRITTEN: u8 = 0;

// What `read_column` answers: C's `enum rope_column`.
#[derive(Clone, Copy)]
enum ColumnCode {
    Number = 0,
    Blank = 1,
    Malformed = 2,
    TooWide = 3,
}

// What `judge_header` answers: C's `enum rope_header`.
#[derive(Clone, Copy)]
enum HeaderCode {
    Good = 0,
    Other = 1,
}

// The checksum of some bytes.
pub fn checksum(s: &[u8]) -> u32
    ensures { ChecksumCall s.now result }
{
    sum::checksum_of(s)
}

// Writes x over the whole slice, right-justified.
pub fn write_number(s: &mut [u8], x: u64)
    ensures { WriteNumberCall s.old s.new x }
{
    spell::write_number(s, x);
}

// Reads a column: 0 and the number, 1 blank, 2 malformed, 3 over 19 bytes.
#[tactic(auto, unfolding(crate::specs::Pieces::column_code, crate::specs::Pieces::column_out))]
pub fn read_column(column: &[u8], value: &mut u64) -> u8
    ensures { ReadColumnCall column.now value.old value.new result }
{
    if WIDEST_COLUMN < column.len() {
        return ColumnCode::TooWide as u8;
    }
    match spell::read_column(column) {
        ColumnState::Number(x) => {
            *value = x;
            ColumnCode::Number as u8
        }
        ColumnState::Blank => ColumnCode::Blank as u8,
        ColumnState::Malformed => ColumnCode::Malformed as u8,
    }
}

// Writes a header with the index of the first slot, where its edition gives one: 0, or 3 and nothing written.
#[tactic(auto, unfolding(crate::specs::Pieces::size_refusal, image::specs::Refusal::unless_refused))]
pub fn write_header(header: &mut [u8], shape: Shape, replica: usize, first: u32) -> u8
    ensures { WriteHeaderCall header.old header.new shape replica first result }
{
    if header.len() != header_size(shape) {
        return Refusal::BufferLength as u8;
    }
    write_header::write_header(header, shape, replica, first);
    WRITTEN
}

// Judges a header: 0 the writer's for this shape and replica, and the index that it gives of the first slot, 1 other bytes.
#[tactic(auto, unfolding(crate::specs::Pieces::header_code, crate::specs::Pieces::header_out))]
pub fn judge_header(header: &[u8], shape: Shape, replica: usize, first: &mut u32) -> u8
    ensures { JudgeHeaderCall header.now shape replica first.old first.new result }
{
    match judge_header::judge_header(header, shape, replica) {
        Some(given) => {
            *first = given;
            HeaderCode::Good as u8
        }
        None => HeaderCode::Other as u8,
    }
}

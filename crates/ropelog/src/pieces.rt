// The pieces of an image, for any lent bytes. A writer answers 0 or document 01's refusal: 3 for a wrong length, 9 for a payload. A judge's
// answer is no refusal but a code of its own, of which 0 is the good one.
ghost use Rattle.std.specs.Prelude.{◌≡◌, length};
ghost use Rattle.checksum.specs.Checksum.{checksum_of};
ghost use Rattle.column.specs.Column.{column};
ghost use Rattle.record.specs.Layout.{header_size, record_size, entry_size, header_bytes, record_bytes, blank_record, entry_bytes, fresh_entry};
ghost use Rattle.image.specs.Refusal.{unless_refused};
ghost use Rattle.call_pieces.specs.Pieces.{size_refusal, header_code, header_out, column_code, column_out};
ghost use Rattle.call_records.specs.Records.{entry_refusal, record_code, record_out, entry_code, entry_epoch_out, entry_size_out};

use record::Shape;

// The checksum of some bytes.
#[unsafe(no_mangle)]
pub extern "C" fn rope_checksum(s: &[u8]) -> u32
    ensures { result ≡ checksum_of s.now }
{
    call_pieces::checksum(s)
}

// Writes x over the whole slice, right-justified.
#[unsafe(no_mangle)]
pub extern "C" fn rope_write_number(s: &mut [u8], x: u64)
    ensures { s.new ≡ column (length s.old) x }
{
    call_pieces::write_number(s, x);
}

// Reads a column: 0 and the number, 1 blank, 2 malformed, 3 over 19 bytes.
#[unsafe(no_mangle)]
pub extern "C" fn rope_read_column(s: &[u8], value: &mut u64) -> u8
    ensures { (result ≡ column_code s.now)
        × (value.new ≡ column_out s.now value.old) }
{
    call_pieces::read_column(s, value)
}

// Writes a header with the index of the first slot, where its edition gives one: 0, or 3 and nothing written.
#[unsafe(no_mangle)]
pub extern "C" fn rope_write_header(s: &mut [u8], shape: Shape, replica: usize, first: u32) -> u8
    ensures { (result ≡ size_refusal (header_size shape) s.old)
        × (s.new ≡ unless_refused result (header_bytes shape replica first) s.old) }
{
    call_pieces::write_header(s, shape, replica, first)
}

// Writes the record of an epoch and an index: 0, or 3 and nothing written.
#[unsafe(no_mangle)]
pub extern "C" fn rope_write_record(s: &mut [u8], epoch: u32, index: u32) -> u8
    ensures { (result ≡ size_refusal record_size s.old)
        × (s.new ≡ unless_refused result (record_bytes epoch index) s.old) }
{
    call_records::records::write_record(s, epoch, index)
}

// Writes a blank record: 0, or 3 and nothing written.
#[unsafe(no_mangle)]
pub extern "C" fn rope_write_blank_record(s: &mut [u8]) -> u8
    ensures { (result ≡ size_refusal record_size s.old)
        × (s.new ≡ unless_refused result blank_record s.old) }
{
    call_records::records::write_blank_record(s)
}

// Writes the entry of an epoch, an index and a payload: 0, or 3 or 9 and nothing written.
#[unsafe(no_mangle)]
pub extern "C" fn rope_write_entry(s: &mut [u8], epoch: u32, index: u32, payload: &[u8]) -> u8
    ensures { (result ≡ entry_refusal s.old payload.now)
        × (s.new ≡ unless_refused result (entry_bytes epoch index payload.now) s.old) }
{
    call_records::entries::write_entry(s, epoch, index, payload)
}

// Writes a fresh entry: 0, or 3 and nothing written.
#[unsafe(no_mangle)]
pub extern "C" fn rope_write_fresh_entry(s: &mut [u8]) -> u8
    ensures { (result ≡ size_refusal entry_size s.old)
        × (s.new ≡ unless_refused result fresh_entry s.old) }
{
    call_records::entries::write_fresh_entry(s)
}

// Judges a header: 0 the writer's for this shape and replica, and the index that it gives of the first slot, 1 other bytes.
#[unsafe(no_mangle)]
pub extern "C" fn rope_judge_header(s: &[u8], shape: Shape, replica: usize, first: &mut u32) -> u8
    ensures { (result ≡ header_code shape replica s.now)
        × (first.new ≡ header_out shape replica s.now first.old) }
{
    call_pieces::judge_header(s, shape, replica, first)
}

// Judges the record of an index: 0 good and its epoch, 1 blank, 2 bad, 3 not a record's length.
#[unsafe(no_mangle)]
pub extern "C" fn rope_judge_record(s: &[u8], index: u32, epoch: &mut u32) -> u8
    ensures { (result ≡ record_code index s.now)
        × (epoch.new ≡ record_out index s.now epoch.old) }
{
    call_records::records::judge_record(s, index, epoch)
}

// Judges the entry of an index: 0 intact with its epoch and its payload's length, 1 broken, 3 not an entry's length.
#[unsafe(no_mangle)]
pub extern "C" fn rope_judge_entry(s: &[u8], index: u32, epoch: &mut u32, size: &mut usize) -> u8
    ensures { (result ≡ entry_code index s.now)
        × (epoch.new ≡ entry_epoch_out index s.now epoch.old)
        × (size.new ≡ entry_size_out index s.now size.old) }
{
    call_records::entries::judge_entry(s, index, epoch, size)
}

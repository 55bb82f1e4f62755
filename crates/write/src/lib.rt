// Records and entries written over a slice of their size.
#![tactic(auto)]

ghost use Rattle.std.specs.Prelude.{◌+◌, ◌≤◌, ◌≡◌, length, take};
ghost use Rattle.slices.specs.Parts.{spliced};
ghost use Rattle.record.specs.Layout.{record_size, entry_size, max_payload, record_bytes, blank_record, entry_bytes, fresh_entry};
ghost use Rattle.record.specs.Seal.{seal_of};

use locate::{BLANK_SIZE, FRONT_SIZE, INDEX_AT, LENGTH_WIDTH, NUMBER_WIDTH, PAYLOAD_AT};

// Writes the checksum of what stands before `at`, and a newline.
pub fn put_seal(s: &mut [u8], at: usize)
    requires { (at ≤ entry_size) × (at + 12 ≤ length s.old) }
    ensures { s.new ≡ spliced s.old at (seal_of (take at s.old)) }
{
    let sum = sum::checksum_of(&s[0..at]);
    spell::put_number(s, at, NUMBER_WIDTH, sum as u64);
    s[at + NUMBER_WIDTH] = b'\n';
}

// Writes the record of an epoch and an index.
pub fn write_record(s: &mut [u8], epoch: u32, index: u64)
    requires { length s.old ≡ record_size }
    ensures { s.new ≡ record_bytes epoch index }
{
    spell::put_number(s, 0, NUMBER_WIDTH, epoch as u64);
    spell::put_number(s, INDEX_AT, NUMBER_WIDTH, index);
    put_seal(s, FRONT_SIZE);
}

// Writes a blank record.
pub fn write_blank_record(s: &mut [u8])
    requires { length s.old ≡ record_size }
    ensures { s.new ≡ blank_record }
{
    copy::fill_bytes(s, b' ');
    s[BLANK_SIZE] = b'\n';
}

// Writes the entry of an epoch, an index and a payload.
pub fn write_entry(s: &mut [u8], epoch: u32, index: u64, payload: &[u8])
    requires { (length s.old ≡ entry_size) × (length payload.now ≤ max_payload) }
    ensures { s.new ≡ entry_bytes epoch index payload.now }
{
    let size = payload.len();
    copy::fill_bytes(s, b' ');
    spell::put_number(s, 0, NUMBER_WIDTH, epoch as u64);
    spell::put_number(s, INDEX_AT, NUMBER_WIDTH, index);
    spell::put_number(s, FRONT_SIZE, LENGTH_WIDTH, size as u64);
    copy::put_bytes(s, PAYLOAD_AT, payload);
    put_seal(s, PAYLOAD_AT + size);
}

// Writes an entry that stands elsewhere, as its 240 bytes.
pub fn write_entry_bytes(s: &mut [u8], entry: &[u8])
    requires { (length s.old ≡ entry_size) × (length entry.now ≡ entry_size) }
    ensures { s.new ≡ entry.now }
{
    s.copy_from_slice(entry);
}

// Writes a fresh entry.
pub fn write_fresh_entry(s: &mut [u8])
    requires { length s.old ≡ entry_size }
    ensures { s.new ≡ fresh_entry }
{
    copy::fill_bytes(s, b' ');
}

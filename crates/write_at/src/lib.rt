// Records and entries written at an offset of a buffer.
#![tactic(auto)]

ghost use Rattle.std.specs.Prelude.{◌+◌, ◌≤◌, ◌≡◌, length};
ghost use Rattle.slices.specs.Parts.{spliced};
ghost use Rattle.record.specs.Layout.{record_size, entry_size, max_payload, record_bytes, blank_record, entry_bytes, fresh_entry};

use locate::{ENTRY_SIZE, RECORD_SIZE};
use write::{write_blank_record, write_entry, write_fresh_entry, write_record};

// Writes the record of an epoch and an index at `at`.
pub fn put_record(image: &mut [u8], at: usize, epoch: u32, index: u64)
    requires { at + record_size ≤ length image.old }
    ensures { image.new ≡ spliced image.old at (record_bytes epoch index) }
{
    let e = at + RECORD_SIZE;
    write_record(&mut image[at..e], epoch, index);
}

// Writes a blank record at `at`.
pub fn put_blank(image: &mut [u8], at: usize)
    requires { at + record_size ≤ length image.old }
    ensures { image.new ≡ spliced image.old at blank_record }
{
    let e = at + RECORD_SIZE;
    write_blank_record(&mut image[at..e]);
}

// Writes the entry of an epoch, an index and a payload at `at`.
pub fn put_entry(image: &mut [u8], at: usize, epoch: u32, index: u64, payload: &[u8])
    requires { (at + entry_size ≤ length image.old) × (length payload.now ≤ max_payload) }
    ensures { image.new ≡ spliced image.old at (entry_bytes epoch index payload.now) }
{
    let e = at + ENTRY_SIZE;
    write_entry(&mut image[at..e], epoch, index, payload);
}

// Writes a fresh entry at `at`.
pub fn put_fresh(image: &mut [u8], at: usize)
    requires { at + entry_size ≤ length image.old }
    ensures { image.new ≡ spliced image.old at fresh_entry }
{
    let e = at + ENTRY_SIZE;
    write_fresh_entry(&mut image[at..e]);
}

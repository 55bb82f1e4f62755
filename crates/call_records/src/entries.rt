// Entries.
ghost use Rattle.call_records.specs.Records.{WriteEntryCall, WriteFreshEntryCall, JudgeEntryCall};

use crate::WRONG_LENGTH;
use call_pieces::WRITTEN;
use image::refusal::Refusal;
use locate::{ENTRY_SIZE, MAX_PAYLOAD};

// What `judge_entry` answers: C's `enum rope_entry`, but for WRONG_LENGTH.
#[derive(Clone, Copy)]
enum EntryCode {
    Intact = 0,
    Broken = 1,
}

// Writes the entry of an epoch, an index and a payload: 0, or 3 or 9 and nothing written.
#[tactic(auto, unfolding(crate::specs::Records::entry_refusal, image::specs::Refusal::unless_refused))]
pub fn write_entry(target: &mut [u8], epoch: u32, index: u32, payload: &[u8]) -> u8
    ensures { WriteEntryCall target.old target.new epoch index payload.now result }
{
    if target.len() != ENTRY_SIZE {
        return Refusal::BufferLength as u8;
    }
    if MAX_PAYLOAD < payload.len() {
        return Refusal::AppendPayload as u8;
    }
    write::write_entry(target, epoch, u64::from(index), payload);
    WRITTEN
}

// Writes a fresh entry: 0, or 3 and nothing written.
#[tactic(auto, unfolding(call_pieces::specs::Pieces::size_refusal, image::specs::Refusal::unless_refused))]
pub fn write_fresh_entry(fresh: &mut [u8]) -> u8
    ensures { WriteFreshEntryCall fresh.old fresh.new result }
{
    if fresh.len() == ENTRY_SIZE {
        write::write_fresh_entry(fresh);
        WRITTEN
    } else {
        Refusal::BufferLength as u8
    }
}

// Judges the entry of an index: 0 intact with its epoch and its payload's length, 1 broken, 3 not an entry's length.
#[tactic(auto, unfolding(crate::specs::Records::entry_code, crate::specs::Records::entry_epoch_out, crate::specs::Records::entry_size_out))]
pub fn judge_entry(bytes: &[u8], index: u32, epoch: &mut u32, size: &mut usize) -> u8
    ensures { JudgeEntryCall bytes.now index epoch.old epoch.new size.old size.new result }
{
    if bytes.len() != ENTRY_SIZE {
        return WRONG_LENGTH;
    }
    match judge::judge_entry(bytes, u64::from(index)) {
        Some(found) => {
            *epoch = found.epoch;
            *size = found.size;
            EntryCode::Intact as u8
        }
        None => EntryCode::Broken as u8,
    }
}

// Records.
ghost use Rattle.call_records.specs.Records.{WriteRecordCall, WriteBlankRecordCall, JudgeRecordCall};

use crate::WRONG_LENGTH;
use call_pieces::WRITTEN;
use image::refusal::Refusal;
use locate::RECORD_SIZE;
use record::RecordState;

// What `judge_record` answers: C's `enum rope_record`, but for WRONG_LENGTH.
#[derive(Clone, Copy)]
enum RecordCode {
    Good = 0,
    Blank = 1,
    Bad = 2,
}

// Writes the record of an epoch and an index: 0, or 3 and nothing written.
#[tactic(auto, unfolding(call_pieces::specs::Pieces::size_refusal, image::specs::Refusal::unless_refused))]
pub fn write_record(target: &mut [u8], epoch: u32, index: u32) -> u8
    ensures { WriteRecordCall target.old target.new epoch index result }
{
    if target.len() != RECORD_SIZE {
        return Refusal::BufferLength as u8;
    }
    write::write_record(target, epoch, u64::from(index));
    WRITTEN
}

// Writes a blank record: 0, or 3 and nothing written.
#[tactic(auto, unfolding(call_pieces::specs::Pieces::size_refusal, image::specs::Refusal::unless_refused))]
pub fn write_blank_record(blank: &mut [u8]) -> u8
    ensures { WriteBlankRecordCall blank.old blank.new result }
{
    if blank.len() == RECORD_SIZE {
        write::write_blank_record(blank);
        WRITTEN
    } else {
        Refusal::BufferLength as u8
    }
}

// Judges the record of an index: 0 good and its epoch, 1 blank, 2 bad, 3 not a record's length.
#[tactic(auto, unfolding(crate::specs::Records::record_code, crate::specs::Records::record_out))]
pub fn judge_record(bytes: &[u8], index: u32, epoch: &mut u32) -> u8
    ensures { JudgeRecordCall bytes.now index epoch.old epoch.new result }
{
    if bytes.len() != RECORD_SIZE {
        return WRONG_LENGTH;
    }
    match judge::judge_record(bytes, u64::from(index)) {
        RecordState::Good(e) => {
            *epoch = e;
            RecordCode::Good as u8
        }
        RecordState::Blank => RecordCode::Blank as u8,
        RecordState::Bad => RecordCode::Bad as u8,
    }
}

// Records and entries judged: each is what the writer writes, or it is not.
#![tactic(auto)]

ghost use Rattle.std.specs.Prelude.{◌+◌, ◌-◌, ◌≤◌, ◌≡◌, ◌++◌, length, take, drop, replicate};
ghost use Rattle.slices.specs.Parts.{part};
ghost use Rattle.slices.specs.Same.{same};
ghost use Rattle.record.specs.Layout.{record_size, entry_size, blank_record};
ghost use Rattle.record.specs.Meaning.{read_record, read_entry, is_good, is_intact};
ghost use Rattle.record.specs.Judged.{record_answer, entry_answer};
ghost use Rattle.record.specs.Seal.{seal_of, is_front};

use locate::{
    BLANK_SIZE, ENTRY_SIZE, FRONT_SIZE, INDEX_AT, MAX_PAYLOAD, NUMBER_WIDTH, PAYLOAD_AT, SEAL_SIZE,
};
use record::{Intact, RecordState};

// Epochs are 1 to this.
const LAST_EPOCH: u64 = 4294967295;

// Whether the checksum of what stands before `at`, and a newline, stand at `at`.
fn is_sealed(s: &[u8], at: usize) -> bool
    requires { (at ≤ entry_size) × (at + 12 ≤ length s.now) }
    ensures { result ≡ same (part s.now at 12) (seal_of (take at s.now)) }
{
    let e = at + NUMBER_WIDTH;
    s[e] == b'\n' && spell::holds_number(&s[at..e], sum::checksum_of(&s[0..at]) as u64)
}

// Whether the front is the writer's for this index and epoch.
fn is_front(s: &[u8], index: u64, epoch: u64) -> bool
    requires { 22 ≤ length s.now }
    ensures { result ≡ is_front index epoch s.now }
{
    if epoch < 1 || LAST_EPOCH < epoch {
        return false;
    }
    spell::holds_number(&s[0..INDEX_AT], epoch)
        && spell::holds_number(&s[INDEX_AT..FRONT_SIZE], index)
}

// Whether the record is the writer's for this index and epoch.
fn is_good(s: &[u8], index: u64, epoch: u64) -> bool
    requires { length s.now ≡ record_size }
    ensures { result ≡ is_good index epoch s.now }
{
    is_front(s, index, epoch) && is_sealed(s, FRONT_SIZE)
}

// Whether a record is blank.
fn is_blank(s: &[u8]) -> bool
    requires { length s.now ≡ record_size }
    ensures { result ≡ same s.now blank_record }
{
    s[BLANK_SIZE] == b'\n' && copy::all_bytes(&s[0..BLANK_SIZE], b' ')
}

// Judges the record of an index: good with its epoch, blank, or bad.
pub fn judge_record(s: &[u8], index: u64) -> RecordState
    requires { length s.now ≡ record_size }
    ensures { result ≡ record_answer (read_record index s.now) }
{
    let epoch = spell::number_in(&s[0..INDEX_AT]);
    if is_good(s, index, epoch) {
        return RecordState::Good(epoch as u32);
    }
    if is_blank(s) {
        return RecordState::Blank;
    }
    RecordState::Bad
}

// Whether the entry is the writer's for this index, epoch and the payload of that length that stands in it.
fn is_intact(s: &[u8], index: u64, epoch: u64, size: usize) -> bool
    requires { length s.now ≡ entry_size }
    ensures { result ≡ is_intact index epoch (part s.now 26 size) s.now }
{
    if MAX_PAYLOAD < size {
        return false;
    }
    if !is_front(s, index, epoch) {
        return false;
    }
    spell::holds_number(&s[FRONT_SIZE..PAYLOAD_AT], size as u64) && is_closed(s, PAYLOAD_AT + size)
}

// Whether the seal of what stands before `at`, and then nothing but spaces, stand at `at`.
fn is_closed(s: &[u8], at: usize) -> bool
    requires { (length s.now ≡ entry_size) × (at + 12 ≤ entry_size) }
    ensures { result ≡ same (drop at s.now) (seal_of (take at s.now) ++ replicate (entry_size - (at + 12)) 32) }
{
    is_sealed(s, at) && copy::all_bytes(&s[at + SEAL_SIZE..ENTRY_SIZE], b' ')
}

// Judges the entry of an index, given the part of the image that begins at its own start: what it is if it is intact.
pub fn judge_entry(s: &[u8], index: u64) -> Option<Intact>
    requires { length s.now ≡ entry_size }
    ensures { result ≡ entry_answer (read_entry index s.now) }
{
    let epoch = spell::number_in(&s[0..INDEX_AT]);
    let size = spell::number_in(&s[FRONT_SIZE..PAYLOAD_AT]) as usize;
    if is_intact(s, index, epoch, size) {
        return Some(Intact {
            epoch: epoch as u32,
            size,
        });
    }
    None
}

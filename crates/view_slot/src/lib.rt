// One slot of an image as its scan finds it: its condition and epoch.
#![tactic(auto)]

ghost use Rattle.std.specs.Prelude.{ℕ, ◌<◌, ◌≤◌, ◌≡◌, false, ◌||◌, List, eqb, length};
ghost use Rattle.record.specs.Layout.{is_witness};
ghost use Rattle.record.specs.Meaning.{Entry, good, bad};
ghost use Rattle.record.specs.Judged.{record_answer, entry_answer};
ghost use Rattle.image.specs.Image.{image_size, record_at, entry_at, decode_under};
ghost use Rattle.image.specs.Scan.{SlotIs};

use image::condition::{self, Condition, Slot};
use locate::{ENTRY_SIZE, RECORD_SIZE, entry_at, index_of, is_witness, record_at};
use record::{Intact, RecordState, Shape};

// The record of slot k, of a log whose first slot has index `first`.
fn record_state(image: &[u8], shape: Shape, first: u32, k: usize) -> RecordState
    requires { (shape.m ≤ 64) × (k < shape.m) × (record_at shape shape.m ≤ length image.now) }
    ensures { (c : ℕ) → result ≡ record_answer ((decode_under shape c first image.now).records k) }
{
    let a = record_at(shape, k);
    let e = a + RECORD_SIZE;
    judge::judge_record(&image[a..e], index_of(first, k))
}

// The entry of slot k of a card, judged by the part of the image that begins at its own start.
pub fn entry_state(image: &[u8], shape: Shape, first: u32, k: usize) -> Option<Intact>
    requires { (shape.m ≤ 64) × (k < shape.m) × (entry_at shape shape.m ≤ length image.now) }
    ensures { (c : ℕ) → is_witness shape c ≡ false
        → result ≡ entry_answer ((decode_under shape c first image.now).entries k) }
{
    let a = entry_at(shape, k);
    let e = a + ENTRY_SIZE;
    judge::judge_entry(&image[a..e], index_of(first, k))
}

// The entry of slot k of a replica. A witness has none, which is none that is intact (document 02, Seven).
fn entry_of(image: &[u8], shape: Shape, replica: usize, first: u32, k: usize) -> Option<Intact>
    requires { (shape.m ≤ 64) × (k < shape.m) × (length image.now ≡ image_size shape replica) }
    ensures { result ≡ entry_answer ((decode_under shape replica first image.now).entries k) }
{
    if is_witness(shape, replica) {
        return None;
    }
    entry_state(image, shape, first, k)
}

// A slot whose record is good: whole if its entry is intact and of the same epoch, else faulty.
fn good_slot(epoch: u32, entry: Option<Intact>) -> Slot
    ensures { (x : Entry) → entry ≡ entry_answer x → SlotIs (good epoch) x result }
{
    let condition = match entry {
        Some(intact) if intact.epoch == epoch => Condition::Whole,
        _ => Condition::Faulty,
    };
    Slot { condition, epoch }
}

// A slot whose record is bad: its entry still has the epoch, or it is lost.
fn bad_slot(entry: Option<Intact>) -> Slot
    ensures { (b : List ℕ) (x : Entry) → entry ≡ entry_answer x → SlotIs (bad b) x result }
{
    match entry {
        Some(intact) => Slot {
            condition: Condition::RecordLost,
            epoch: intact.epoch,
        },
        None => Slot {
            condition: Condition::Lost,
            epoch: 0,
        },
    }
}

// One slot of the scan. A blank record's entry is not judged.
pub fn slot_at(image: &[u8], shape: Shape, replica: usize, first: u32, k: usize) -> Slot
    requires { (shape.m ≤ 64) × (k < shape.m) × (length image.now ≡ image_size shape replica) }
    ensures { SlotIs ((decode_under shape replica first image.now).records k)
        ((decode_under shape replica first image.now).entries k) result }
{
    let record = record_state(image, shape, first, k);
    let RecordState::Good(epoch) = record else {
        if let RecordState::Blank = record {
            return Slot::UNUSED;
        }
        return bad_slot(entry_of(image, shape, replica, first, k));
    };
    good_slot(epoch, entry_of(image, shape, replica, first, k))
}

// Whether a condition, by number as a table holds it, is whole, its record lost or not.
pub fn is_whole(condition: u8) -> bool
    ensures { result ≡ (eqb condition 1 || eqb condition 2) }
{
    condition == condition::WHOLE || condition == condition::RECORD_LOST
}

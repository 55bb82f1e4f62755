// The verdict of each slot.
#![tactic(auto)]

ghost use Rattle.std.specs.Prelude.{ℕ, ◌<◌, ◌≤◌, ◌≡◌, false, length};
ghost use Rattle.record.specs.Layout.{is_witness};
ghost use Rattle.record.specs.Meaning.{Entry};
ghost use Rattle.record.specs.Judged.{entry_answer};
ghost use Rattle.image.specs.Image.{entry_at, decode_under};
ghost use Rattle.image.specs.declared.condition.Condition.TheVariants.{Unused, Faulty};
ghost use Rattle.image.specs.Verdict.{is_fresh, verdict_number, verdict_of};
ghost use Rattle.image.specs.Scan.{Marked};
ghost use Rattle.image.specs.Read.{verdicts_of};

pub mod by_number; // by_number.rt: the same of conditions by number

use image::MAX_SLOTS;
use image::condition::{Condition, Slot};
use image::verdict::Verdict;
use locate::{ENTRY_SIZE, entry_at};
use record::{Intact, Shape};
use view_slot::entry_state;

// Whether the entry of slot k is all spaces.
fn is_fresh(image: &[u8], shape: Shape, k: usize) -> bool
    requires { (shape.m ≤ 64) × (k < shape.m) × (entry_at shape shape.m ≤ length image.now) }
    ensures { (c first : ℕ) → is_witness shape c ≡ false → result ≡ is_fresh ((decode_under shape c first image.now).entries k) }
{
    let a = entry_at(shape, k);
    let e = a + ENTRY_SIZE;
    copy::all_bytes(&image[a..e], b' ')
}

// The verdict of slot k whose record is good and whose entry is not intact with its epoch: stale, if the entry is intact all the same.
fn faulty_verdict(entry: Option<Intact>, k: usize, used: usize) -> Verdict
    requires { k < 64 }
    ensures { (x : Entry) → entry ≡ entry_answer x → verdict_number result ≡ verdict_of used k Faulty x }
{
    match entry {
        Some(_) => Verdict::Stale,
        None if k + 1 == used => Verdict::Ambiguous,
        None => Verdict::Corrupt,
    }
}

// The verdict of slot k whose record is blank: unfinished, if it is the first such one and its entry is not fresh.
fn unused_verdict(image: &[u8], shape: Shape, k: usize, used: usize) -> Verdict
    requires { (shape.m ≤ 64) × (k < shape.m) × (entry_at shape shape.m ≤ length image.now) }
    ensures { (c first : ℕ) → is_witness shape c ≡ false
        → verdict_number result ≡ verdict_of used k Unused ((decode_under shape c first image.now).entries k) }
{
    if k != used || is_fresh(image, shape, k) {
        return Verdict::Unused;
    }
    Verdict::Partial
}

// The verdict of slot k of a log of so many used slots. Where its condition does not tell, its entry is looked at.
fn verdict(
    image: &[u8],
    shape: Shape,
    first: u32,
    condition: Condition,
    k: usize,
    used: usize,
) -> Verdict
    requires { (shape.m ≤ 64) × (k < shape.m) × (entry_at shape shape.m ≤ length image.now) }
    ensures { (c : ℕ) → is_witness shape c ≡ false
        → verdict_number result ≡ verdict_of used k condition ((decode_under shape c first image.now).entries k) }
{
    match condition {
        Condition::Unused => unused_verdict(image, shape, k, used),
        Condition::Whole => Verdict::Whole,
        Condition::RecordLost => Verdict::RecordLost,
        Condition::Faulty => faulty_verdict(entry_state(image, shape, first, k), k, used),
        Condition::Lost | Condition::RecordOnly => Verdict::Unused,
    }
}

// Gives the caller the verdicts of its slots.
pub fn fill_verdicts(
    image: &[u8],
    shape: Shape,
    first: u32,
    slots: &[Slot; MAX_SLOTS],
    used: usize,
    verdicts: &mut [u8],
)
    requires { (shape.m ≤ 64) × (entry_at shape shape.m ≤ length image.now) × (length verdicts.old ≡ shape.m) }
    ensures { (c : ℕ) → is_witness shape c ≡ false
        → Marked shape.m (decode_under shape c first image.now) used slots.now
        → verdicts.new ≡ verdicts_of shape.m (decode_under shape c first image.now) }
{
    for k in 0..shape.m {
        verdicts[k] = verdict(image, shape, first, slots[k].condition, k, used) as u8;
    }
}

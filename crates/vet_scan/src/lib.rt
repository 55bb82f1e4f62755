// Refusals of what the scan of an image holds: 5 to 7; the length of its log.
#![tactic(auto)]

ghost use Rattle.std.specs.Prelude.{◌≤◌, ◌≡◌, length};
ghost use Rattle.image.specs.Refusal.{refusal_of};
ghost use Rattle.image.specs.Scan.{length_in, gap_in, lost_in, falls_in, scan_refusal};

pub mod by_number; // by_number.rt: the same of conditions and epochs by number

use image::condition::Slot;
use image::refusal::Refusal;

// The log's length: the first slot that is unused.
pub fn log_length(slots: &[Slot]) -> usize
    ensures { result ≡ length_in slots.now }
{
    for (k, slot) in slots.iter().enumerate() {
        if slot.condition.is_unused() {
            return k;
        }
    }
    slots.len()
}

// Whether a slot behind the log's end is used.
#[tactic(auto, unfolding(image::specs::Scan::gap_in))]
fn has_gap(slots: &[Slot], used: usize) -> bool
    requires { used ≤ length slots.now }
    ensures { result ≡ gap_in used slots.now }
{
    slots
        .iter()
        .skip(used)
        .any(|slot| !slot.condition.is_unused())
}

// Whether a slot has lost both its record and its entry.
#[tactic(auto, unfolding(image::specs::Scan::lost_in))]
fn has_lost(slots: &[Slot]) -> bool
    ensures { result ≡ lost_in slots.now }
{
    slots.iter().any(|slot| slot.condition.is_lost())
}

// Whether a used slot's epoch is below the one before it.
fn falls(used: &[Slot]) -> bool
    ensures { result ≡ falls_in used.now }
{
    for k in 1..used.len() {
        if used[k].epoch < used[k - 1].epoch {
            return true;
        }
    }
    false
}

// Refusals 5 to 7, each over the whole image.
pub fn vet_scan(slots: &[Slot], used: usize) -> Result<(), Refusal>
    requires { used ≤ length slots.now }
    ensures { refusal_of result ≡ scan_refusal used slots.now }
{
    if has_gap(slots, used) {
        return Err(Refusal::UsedAfterBlank);
    }
    if has_lost(slots) {
        return Err(Refusal::BothLost);
    }
    if falls(&slots[..used]) {
        return Err(Refusal::EpochFalls);
    }
    Ok(())
}

// One image: what it means, its verdicts and refusals, and what appending does to it.
// The code is `view`'s, `read`'s and `append`'s.
#![tactic(auto)]

ghost use Rattle.image.specs.LayoutClaim.{LayoutClaim};
ghost use Rattle.image.specs.RefusalClaim.{RefusalClaim};
ghost use Rattle.image.specs.ReadingClaim.{ReadingClaim};
ghost use Rattle.image.specs.AppendClaim.{AppendClaim};
ghost use Rattle.image.specs.LastEntry.{LastEntry};

pub mod condition; // condition.rt: the conditions of a slot, and a slot as the scan finds it
pub mod verdict; // verdict.rt: the verdicts of a slot
pub mod refusal; // refusal.rt: the refusals

// An image has at most so many slots, and a cluster from so many to so many replicas.
pub const MAX_SLOTS: usize = 64;

pub const MIN_REPLICAS: usize = 3;

pub const MAX_REPLICAS: usize = 7;

// A log that was read: its length, and the index of its first slot.
#[derive(Clone, Copy, PartialEq, Eq)]
pub struct Log {
    pub length: usize,
    pub first: u32,
}

// The sizes of an image and of a cluster, and that taken apart they have every byte, as a theorem.
pub fn layout_claim()
    ensures { LayoutClaim }
{}

// Each refusal of an image has document 01's condition, and the lowest number that applies wins, as a theorem.
pub fn refusal_claim()
    ensures { RefusalClaim }
{}

// Length, epochs, verdicts and payloads are what the sentences of documents 01 and 02 say, as a theorem.
pub fn reading_claim()
    ensures { ReadingClaim }
{}

// What appending does to an image, as a theorem.
pub fn append_claim()
    ensures { AppendClaim }
{}

// An append that the power cut short and a stored entry that was damaged leave the same image: at the last slot no reader of one image can
// tell them apart.
pub fn last_entry_claim()
    ensures { LastEntry }
{}

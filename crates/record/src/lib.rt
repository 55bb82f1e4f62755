// Headers, records and entries: what the writer writes, what bytes mean, and round trips.
// Definitions and laws; the code is `write`'s and `judge`'s.
#![tactic(auto)]

ghost use Rattle.record.specs.Claims.{Exact, EditionOne, RoundTrip, ChangedPayload};

// What a call names of its cluster: n replicas of m slots each, all of one edition, and the set of those that are witnesses. A header of
// edition 2 gives the index of the first slot.
#[repr(C)]
#[derive(Clone, Copy, PartialEq, Eq)]
pub struct Shape {
    pub n: usize,
    pub m: usize,
    pub edition: usize,
    pub witnesses: u32,
}

// What a record is found to be.
#[derive(Clone, Copy, PartialEq, Eq)]
pub enum RecordState {
    Good(u32),
    Blank,
    Bad,
}

// An intact entry: its epoch, and its payload's length.
#[derive(Clone, Copy, PartialEq, Eq)]
pub struct Intact {
    pub epoch: u32,
    pub size: usize,
}

// The judges say exactly what document 01 says.
pub fn exact_claim()
    ensures { Exact }
{}

// Edition 1 is as document 01 has it.
pub fn edition_one_claim()
    ensures { EditionOne }
{}

// What is written is read back, and determines what it was written from.
pub fn round_trip_claim()
    ensures { RoundTrip }
{}

// An intact entry with one or two payload bytes changed is never intact.
pub fn changed_payload_claim()
    ensures { ChangedPayload }
{}

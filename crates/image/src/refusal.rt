// The refusals, by document 01's numbers and what document 02 adds to them. `Refusal.antt` and the chains of each call say when.
#[derive(Clone, Copy, PartialEq, Eq)]
pub enum Refusal {
    // m, or n, the edition or the replica, is out of range.
    SlotCount = 1,
    ReplicaCount = 2,
    // A buffer of an image, a cluster or a piece of another length.
    BufferLength = 3,
    Header = 4,
    // A used slot behind a blank record.
    UsedAfterBlank = 5,
    // A slot that has lost both its record and its entry.
    BothLost = 6,
    EpochFalls = 7,
    AppendEpoch = 8,
    AppendPayload = 9,
    AppendFull = 10,
    // The present set has a bit for no replica.
    Present = 11,
    Leader = 12,
    // A lent result buffer or table of another length.
    LentLength = 13,
    // The printing program's command line.
    CommandLine = 14,
    // The first index of a fresh image, and a first index that is not the leader's (document 02, Six).
    FirstIndex = 20,
    FirstDiffers = 21,
    // The set of witnesses has a bit for no replica (document 02, Seven).
    Witnesses = 22,
}

// Some of them by number, as the planner's code still has them; 0 is none.
pub const NONE: u8 = 0;

pub const SLOT_COUNT: u8 = 1;

pub const REPLICA_COUNT: u8 = 2;

pub const BUFFER_LENGTH: u8 = 3;

pub const PRESENT: u8 = 11;

pub const LEADER: u8 = 12;

pub const LENT_LENGTH: u8 = 13;

pub const COMMAND_LINE: u8 = 14;

pub const FIRST_DIFFERS: u8 = 21;

pub const WITNESSES: u8 = 22;

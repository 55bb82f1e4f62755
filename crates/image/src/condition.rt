// What a slot is, whatever its neighbours hold: its condition and its epoch.
ghost use Rattle.std.specs.Prelude.{◌≡◌};
ghost use Rattle.image.specs.View.{is_unused, is_lost};
ghost use Rattle.image.specs.Read.{is_whole};

// The condition of a slot: `condition` of specs/View.antt says when it is which. 0 to 2 are also a plan byte's
// numbers and a verdict's.
#[derive(Clone, Copy, PartialEq, Eq)]
pub enum Condition {
    Unused = 0,
    Whole = 1,
    // Its record is bad, its entry intact.
    RecordLost = 2,
    // Its record is good, its entry not intact with that epoch.
    Faulty = 3,
    // Record and entry are both lost.
    Lost = 4,
    // A used slot of a witness: its record is good, and it has no entry.
    RecordOnly = 5,
}

impl Condition {
    #[tactic(auto, unfolding(crate::specs::View::is_unused))]
    pub fn is_unused(self) -> bool
        ensures { result ≡ is_unused self }
    {
        matches!(self, Condition::Unused)
    }

    #[tactic(auto, unfolding(crate::specs::View::is_lost))]
    pub fn is_lost(self) -> bool
        ensures { result ≡ is_lost self }
    {
        matches!(self, Condition::Lost)
    }

    // Whether its entry is intact, its record lost or not.
    #[tactic(auto, unfolding(crate::specs::Read::is_whole))]
    pub fn is_whole(self) -> bool
        ensures { result ≡ is_whole self }
    {
        matches!(self, Condition::Whole | Condition::RecordLost)
    }
}

// A slot as the scan of an image finds it.
#[derive(Clone, Copy, PartialEq, Eq)]
pub struct Slot {
    pub condition: Condition,
    pub epoch: u32,
}

impl Slot {
    pub const UNUSED: Slot = Slot {
        condition: Condition::Unused,
        epoch: 0,
    };
}

// The conditions by number, as the planner's tables still have them.
pub const UNUSED: u8 = 0;

pub const WHOLE: u8 = 1;

pub const RECORD_LOST: u8 = 2;

pub const FAULTY: u8 = 3;

pub const RECORD_ONLY: u8 = 5;

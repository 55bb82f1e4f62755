// The answers of the calls of a recovery, and what the code of a step and of a run is proved with.
// The code is `store`'s, `pick`'s, `note`'s, `step`'s and `run`'s.
#![tactic(auto)]

ghost use Rattle.recovery.specs.PlanCall.{PlanCall};
ghost use Rattle.recovery.specs.Statuses.{Statuses};

pub mod kind; // kind.rt: the kinds of a store by number

// The first store still outstanding, if there is one: an entry copied from the donor's, a record, or a record blanked, at slot k of
// replica c. All three count from 0.
#[derive(Clone, Copy)]
pub enum NextStore {
    Nothing,
    Entry { c: usize, k: usize, donor: usize },
    Record { c: usize, k: usize, epoch: u32 },
    Blank { c: usize, k: usize },
}

// What stands of a cluster's recovery: refused by this number; waiting, with the lowest waiting slot's number; or ready, with the first
// store still outstanding, and the index of the first slot of the replica that it is made on.
#[derive(Drop)]
pub enum Outlook {
    Refused(u8),
    Waiting(usize),
    Ready { store: NextStore, first: u32 },
}

// A step's answer: the store that it made, by replica, slot and kind (kind.rt); document 01's settled; waiting, with the lowest waiting
// slot; or the refusal. Replicas and slots by their numbers, from 1.
#[derive(Drop)]
pub enum StepAnswer {
    Stored {
        replica: usize,
        slot: usize,
        kind: u8,
    },
    Recovered,
    Waiting(usize),
    Refused(u8),
}

// A run's answer: settled, or its budget spent and a store outstanding, or waiting, with the lowest waiting slot; each with the number of
// stores that it made. Or the refusal.
#[derive(Drop)]
pub enum RunAnswer {
    Recovered(u64),
    Spent(u64),
    Waiting { slot: usize, stores: u64 },
    Refused(u8),
}

// The planner's answer is that of a plan call of demand 3. The function does nothing; its contract is the theorem.
pub fn plan_call_claim()
    ensures { PlanCall }
{}

// The status that a call hands out says what its answer is, as a theorem.
pub fn status_claim()
    ensures { Statuses }
{}

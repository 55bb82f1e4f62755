// What the replicas answer about each damaged slot of the leader, and what is to be done about it.
// The code is `survey`'s, `decide`'s, `tabulate`'s and `plan`'s.
#![tactic(auto)]

ghost use Rattle.planner.specs.AskingClaim.{AskingClaim};
ghost use Rattle.planner.specs.ClusterRefusalClaim.{ClusterRefusalClaim};

use image::{MAX_REPLICAS, MAX_SLOTS};

pub mod action; // action.rt: the plan's bytes

// Ready with the final length, waiting with the number of the lowest waiting slot, or the refusal.
#[derive(Clone, Copy)]
pub enum PlanAnswer {
    Ready(usize),
    Waiting(usize),
    Refused(u8),
}

// A replica's row in the planner's table: whether it is readable and present, and if so its log's length and last epoch.
#[repr(C)]
#[derive(Clone, Copy)]
pub struct ReplicaRow {
    pub readable: u8,
    pub length: u32,
    pub last_epoch: u32,
}

// A survey has room for 64 slots of each of 7 replicas.
pub const SURVEY_SLOTS: usize = 448;

// The readable set; and for each readable replica the index of its first slot, the length of its log, and the condition's number and the
// epoch of each slot. Slot k of replica c stands at c * MAX_SLOTS + k.
#[derive(Clone, Copy)]
pub struct Survey {
    pub readable: u32,
    pub firsts: [u32; MAX_REPLICAS],
    pub lengths: [usize; MAX_REPLICAS],
    pub conditions: [u8; SURVEY_SLOTS],
    pub epochs: [u32; SURVEY_SLOTS],
}

// The leader's plan: a byte for each slot, the end of its log, and the lowest slot below that waits (the end if none does).
#[derive(Drop)]
pub struct Plan {
    pub bytes: [u8; MAX_SLOTS],
    pub end: usize,
    pub waiting: usize,
}

// Readable, faulty, the three answers, the majority and when a slot is cut are what documents 01 and 02 say, as a theorem.
pub fn asking_claim()
    ensures { AskingClaim }
{}

// Each refusal of a call about a cluster has the condition that documents 01 and 02 give it and no other, and the first that applies, in the
// order in which they are tried, is answered.
pub fn cluster_refusal_claim()
    ensures { ClusterRefusalClaim }
{}

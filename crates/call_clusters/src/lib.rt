// The calls that recover a cluster by steps and runs, for any lent bytes.
#![tactic(auto)]

pub mod steps; // steps.rt: one store
pub mod runs; // runs.rt: stores while a budget lasts

// The status of a step or a run: no store is outstanding, the plan waits, or a store was made (a step) or is still outstanding (a run).
pub const RECOVERED: u8 = 0;

pub const WAITING: u8 = 1;

pub const OUTSTANDING: u8 = 2;

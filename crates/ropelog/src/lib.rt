// What C and Rust link: every exported function, for any arguments.
#![tactic(auto)]

pub mod sizes; // sizes.rt: sizes and offsets
pub mod pieces; // pieces.rt: the checksum, columns, headers, records and entries
pub mod images; // images.rt: one image formatted, appended to, read, and asked for a payload
pub mod witnesses; // witnesses.rt: one witness's image appended to and read
pub mod clusters; // clusters.rt: a cluster planned, and its recovery by steps and runs

// The calls about a record or an entry, for any lent bytes.
#![tactic(auto)]

pub mod records; // records.rt: written, blanked, judged
pub mod entries; // entries.rt: written, made fresh, judged

// What a judge answers of bytes that are not as many as a record's or an entry's.
pub const WRONG_LENGTH: u8 = 3;

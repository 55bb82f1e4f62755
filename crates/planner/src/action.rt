// What is to be done about a slot of the leader, as a byte of the plan: `plan_byte` of specs/Plan.antt. The byte of a slot that is kept is
// its condition's number.
pub const WAIT: u8 = 3;

// The lowest slot that is truncated, and those behind it.
pub const TRUNCATE: u8 = 4;

pub const BEHIND: u8 = 5;

// Added to the number of the replica to fetch from.
pub const FETCH: u8 = 10;

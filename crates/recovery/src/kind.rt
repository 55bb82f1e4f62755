// The kinds of a store by number, as a step's answer names them: document 01's cell, line, and line blanked.
pub const ENTRY: u8 = 1;

pub const RECORD: u8 = 2;

pub const BLANK: u8 = 3;

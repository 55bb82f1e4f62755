// Fixed-width decimal columns.
// Definitions and laws; the code is `spell`'s.
#![tactic(auto)]

ghost use Rattle.column.specs.Claims.{Exact};

// What stands in a column: a number as it is written, nothing, or anything else.
#[derive(Drop)]
pub enum ColumnState {
    Number(u64),
    Blank,
    Malformed,
}

// The reader says exactly what document 01 says, and reads back what was written.
pub fn exact_claim()
    ensures { Exact }
{}

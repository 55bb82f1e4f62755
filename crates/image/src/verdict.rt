// The verdicts of a slot as reading hands them out, by document 01's numbers: `verdict_of` of specs/Verdict.antt says when it is which.
#[derive(Clone, Copy, PartialEq, Eq)]
pub enum Verdict {
    Unused = 0,
    Whole = 1,
    // Whole, its record is lost.
    RecordLost = 2,
    // Its record is good and its entry not intact: damaged, and at the last used slot doubtful.
    Corrupt = 3,
    Ambiguous = 4,
    // The first unused slot, if its entry is not fresh: unfinished.
    Partial = 5,
    // Its entry is intact with another epoch than its record's (document 02, Two).
    Stale = 6,
}

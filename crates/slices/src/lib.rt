// Parts and splices of a buffer, and when two slices are the same.
// Definitions and laws; the code is `copy`'s.
#![tactic(auto)]

// What a step of recovery is, the effect of a call, and what steps keep.
// Definitions and theory. No code.
#![tactic(auto)]

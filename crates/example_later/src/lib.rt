// Two damaged clusters of edition 2, one with a header that became another good one.
#![tactic(auto)]

ghost use Rattle.example_later.specs.LaterComputed.{LaterComputed};

// What the definitions come to on these clusters, as a theorem.
pub fn later_claim()
    ensures { LaterComputed }
{}

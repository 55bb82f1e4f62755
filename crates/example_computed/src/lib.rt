// Three clusters of the examples together: what is computed of them and on the way to a recovery, in one theorem.
#![tactic(auto)]

ghost use Rattle.example_computed.specs.Computed.{Computed};

// What the definitions come to on these clusters, as a theorem.
pub fn computed_claim()
    ensures { Computed }
{}

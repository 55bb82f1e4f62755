// A damaged cluster of four replicas, and its recovery.
#![tactic(auto)]

ghost use Rattle.example_even.specs.EvenComputed.{EvenComputed};

// What the definitions come to on this cluster, as a theorem.
pub fn even_claim()
    ensures { EvenComputed }
{}

// A damaged cluster of three replicas whose plan waits.
#![tactic(auto)]

ghost use Rattle.example_waiting.specs.WaitingComputed.{WaitingComputed};

// What the definitions come to on this cluster, as a theorem.
pub fn waiting_claim()
    ensures { WaitingComputed }
{}

// The example of demand 3: five replicas before and after their damage; payloads for all examples.
#![tactic(auto)]

ghost use Rattle.example.specs.Computed.{DamagedComputed};

// What the definitions come to on this cluster, as a theorem.
pub fn damaged_claim()
    ensures { DamagedComputed }
{}

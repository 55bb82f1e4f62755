// Two clusters with witnesses before and after their damage, and what is computed of them.
// In one a witness's record keeps a payload from being cut, in the other witnesses alone are the majority (document 02, Seven).
#![tactic(auto)]

ghost use Rattle.witnessed.specs.Computed.{Computed};

// What the definitions come to on these clusters, as a theorem.
pub fn computed_claim()
    ensures { Computed }
{}

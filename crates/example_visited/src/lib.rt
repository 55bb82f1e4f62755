// The recovery of the five replicas of `example` among power failures, cluster by cluster.
#![tactic(auto)]

ghost use Rattle.example_visited.specs.VisitedComputed.{VisitedComputed};

// What the definitions come to on these clusters, as a theorem.
pub fn visited_claim()
    ensures { VisitedComputed }
{}

// The starred reference places, how many don't-haves cut for each n, and where reading says 6.
// Three tables, a claim each, computed from the definitions. The places are document 01's.
#![tactic(auto)]

ghost use Rattle.starred.specs.Sizes.{Sizes};
ghost use Rattle.starred.specs.Stale.{StalePlaces};
ghost use Rattle.starred.specs.Starred.{Starred};

pub fn starred_claim()
    ensures { Starred }
{}

pub fn sizes_claim()
    ensures { Sizes }
{}

pub fn stale_claim()
    ensures { StalePlaces }
{}

// Demand 3: every list of plans, steps and runs with power failures anywhere; no earlier cut is safe.
#![tactic(auto)]

ghost use Rattle.demand3.specs.Demand3.{Demand3};
ghost use Rattle.demand3.specs.Earliest.{Earliest};
ghost use Rattle.demand3.specs.HeaderNeeded.{HeaderNeeded};
ghost use Rattle.demand3.specs.LaterPlayed.{LaterExhibit};
ghost use Rattle.demand3.specs.Played.{Exhibit, WaitingExhibit, EvenExhibit};
ghost use Rattle.demand3.specs.WitnessPlayed.{WitnessExhibit, WitnessMajority};

// The claim. The function does nothing; its contract is the theorem.
pub fn demand_three()
    ensures { Demand3 }
{}

// The claim is about something: a damaged cluster meets what is supposed, and a list of calls is played from it.
pub fn exhibit_claim()
    ensures { Exhibit }
{}

// So is what it says of waiting.
pub fn waiting_exhibit_claim()
    ensures { WaitingExhibit }
{}

// It speaks of an even number of replicas: of four, three of which are a majority.
pub fn even_exhibit_claim()
    ensures { EvenExhibit }
{}

// And of logs that begin later, at different indices.
pub fn later_exhibit_claim()
    ensures { LaterExhibit }
{}

// And of witnesses: a witness's record keeps a payload from being cut, and with a copy switched on it stands again.
pub fn witness_exhibit_claim()
    ensures { WitnessExhibit }
{}

// Where witnesses alone are the majority, and no card has the payload, recovery waits.
pub fn witness_majority_claim()
    ensures { WitnessMajority }
{}

// What it supposes of headers is needed: a good header of another first index makes a step overwrite a committed payload's record.
pub fn header_needed_claim()
    ensures { HeaderNeeded }
{}

// And it allows no earlier truncation: with one don't-have fewer a payload on a majority would be truncated.
pub fn earliest_claim()
    ensures { Earliest }
{}

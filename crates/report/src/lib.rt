// The printing program's output as one function of its input; what a set means that is left blank.
// The code is `print`'s.
#![tactic(auto)]

ghost use Rattle.report.specs.SetClaim.{SetClaim};

// The set of a command line: a word, or the leader alone.
#[derive(Drop)]
pub enum Present {
    Set(u32),
    LeaderAlone,
}

// A command line: n, m, the leader's number and the set, or not well formed.
#[derive(Drop)]
pub enum Command {
    Well {
        n: usize,
        m: usize,
        leading: usize,
        present: Present,
    },
    Malformed,
}

// What documents 01 and 02 say of the set, blank and in full, as a theorem.
pub fn set_claim()
    ensures { SetClaim }
{}

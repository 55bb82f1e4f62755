// The printing program's command line.
#![tactic(auto)]

ghost use Rattle.std.specs.Prelude.{◌≡◌, ℕ, ◌<◌};
ghost use Rattle.report.specs.Command.{command_of, command_line, present_of};

use column::ColumnState;
use report::{Command, Present};

// n, m, the leader's number and the set, with the newline behind them.
pub const COMMAND_SIZE: usize = 14;

// A command line of these columns: only the set may be blank.
fn command_of(n: ColumnState, m: ColumnState, leading: ColumnState, set: ColumnState) -> Command
    requires { (w : ℕ) → set ≡ ColumnState.Number w → w < 10000 }
    ensures { result ≡ command_of n m leading set }
{
    let ColumnState::Number(n) = n else {
        return Command::Malformed;
    };
    let ColumnState::Number(m) = m else {
        return Command::Malformed;
    };
    let ColumnState::Number(leading) = leading else {
        return Command::Malformed;
    };
    match set {
        ColumnState::Number(w) => Command::Well {
            n: n as usize,
            m: m as usize,
            leading: leading as usize,
            present: Present::Set(w as u32),
        },
        ColumnState::Blank => Command::Well {
            n: n as usize,
            m: m as usize,
            leading: leading as usize,
            present: Present::LeaderAlone,
        },
        ColumnState::Malformed => Command::Malformed,
    }
}

// The command line at the front of an input.
pub fn read_command(input: &[u8]) -> Command
    ensures { result ≡ command_line input.now }
{
    if input.len() < COMMAND_SIZE {
        return Command::Malformed;
    }
    if input[COMMAND_SIZE - 1] != b'\n' {
        return Command::Malformed;
    }
    let n = spell::read_column(&input[0..3]);
    let m = spell::read_column(&input[3..6]);
    let leading = spell::read_column(&input[6..9]);
    let set = spell::read_column(&input[9..13]);
    command_of(n, m, leading, set)
}

// The set of the leader alone. If there is no such replica the set is empty, and planning refuses the leader.
fn leader_alone(n: usize, leading: usize) -> u32
    ensures { result ≡ present_of n leading Present.LeaderAlone }
{
    if !vet::is_size(n) {
        return 0;
    }
    if leading < 1 {
        return 0;
    }
    if n < leading {
        return 0;
    }
    1 << (leading - 1)
}

// The present set as a word.
pub fn present_word(n: usize, leading: usize, present: Present) -> u32
    ensures { result ≡ present_of n leading present }
{
    let Present::Set(word) = present else {
        return leader_alone(n, leading);
    };
    word
}

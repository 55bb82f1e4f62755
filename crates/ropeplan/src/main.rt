// The printing program: reads a command line and a cluster, and prints the plan or the refusal.
// It reads standard input. That a read or a write failed is told on standard error, and ends the program with status 1.
#![tactic(auto)]

ghost use Rattle.std.specs.Prelude.{◌≤◌, ◌≡◌, length, take};

use std::io::{self, Read, Write};
use std::process::ExitCode;

// One byte more than the most that is accepted: what is read is all of the input, or too long already.
const ROOM: usize = 65537;

// How many bytes were read, and the failure of the read behind them, if one failed.
#[derive(Drop)]
struct Arrived {
    size: usize,
    failure: Option<io::Error>,
}

// Reads until `input` is full, the input ends or a read fails.
fn read_input<R: Read>(reader: &mut R, input: &mut [u8]) -> Arrived
    ensures { (result.size ≤ length input.new) × (result.size ≡ length (take result.size input.new)) }
{
    let mut size = 0;
    while size < input.len() {
        match reader.read(&mut input[size..]) {
            Ok(0) => break,
            Ok(more) => size += more,
            Err(error) => {
                return Arrived {
                    size,
                    failure: Some(error),
                };
            }
        }
    }
    Arrived {
        size,
        failure: None,
    }
}

// What failed and the system's reason on standard error, as `ropeplan: the input could not be read: Is a directory`. An error's own text
// has the reason's number behind it, which is left out.
fn tell(rt: &HostRuntime, what: &str, error: io::Error) -> io::Result<ExitCode> {
    let text = format!(in rt.alloc(); "{error}")?;
    let reason = match text.find(" (os error ") {
        Some(end) => &text[..end],
        None => text.as_str(),
    };
    eprintln!(rt; "ropeplan: {what}: {reason}")?;
    Ok(ExitCode::FAILURE)
}

fn print_report(rt: &HostRuntime, input: &[u8]) -> io::Result<ExitCode> {
    let report = print::report_of(input);
    let count = report.count;
    let bytes = report.bytes;
    match rt.stdout().write_all(&bytes[..count]) {
        Ok(()) => Ok(ExitCode::SUCCESS),
        Err(error) => tell(rt, "the output could not be written", error),
    }
}

fn main(rt: HostRuntime) -> io::Result<ExitCode> {
    let mut input = [0u8; ROOM];
    let arrived = read_input(&mut rt.stdin(), &mut input);
    let size = arrived.size;
    match arrived.failure {
        Some(error) => tell(&rt, "the input could not be read", error),
        None => print_report(&rt, &input[..size]),
    }
}

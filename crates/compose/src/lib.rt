// The lines that are printed, as bytes.
#![tactic(auto)]

ghost use Rattle.std.specs.Prelude.{◌+◌, ◌*◌, ◌<◌, ◌≤◌, ◌≡◌, ◌++◌, length, take};
ghost use Rattle.search.specs.Search.{joined};
ghost use Rattle.slices.specs.Parts.{spliced};
ghost use Rattle.report.specs.Report.{refused_line, head_line, slot_line};
ghost use Rattle.report.specs.Lines.{line_from};

use image::MAX_SLOTS;
use planner::SURVEY_SLOTS;

// The sizes of what is printed: the line of a refusal, the first line of a plan, and the line of a slot.
pub const REFUSED_SIZE: usize = 12;

pub const HEADING_SIZE: usize = 17;

pub const LINE_SIZE: usize = 20;

// The longest output: a first line, and a line for each of 64 slots.
pub const PAGE_SIZE: usize = HEADING_SIZE + LINE_SIZE * MAX_SLOTS;

// The first line of a plan: n, the leader's number, the status and the answer's number.
#[derive(Clone, Copy)]
pub struct Heading {
    pub n: usize,
    pub leading: usize,
    pub status: usize,
    pub number: usize,
}

// Writes the line of a refusal.
pub fn write_refused(s: &mut [u8], number: u64)
    requires { length s.old ≡ 12 }
    ensures { s.new ≡ refused_line number }
{
    copy::put_bytes(s, 0, b"refused");
    spell::put_number(s, 7, 4, number);
    copy::put_bytes(s, 11, b"\n");
}

// Writes the first line of a plan.
pub fn write_heading(s: &mut [u8], heading: Heading)
    requires { length s.old ≡ 17 }
    ensures { s.new ≡ head_line heading.n heading.leading heading.status heading.number }
{
    spell::put_number(s, 0, 4, heading.n as u64);
    spell::put_number(s, 4, 4, heading.leading as u64);
    spell::put_number(s, 8, 4, heading.status as u64);
    spell::put_number(s, 12, 4, heading.number as u64);
    copy::put_bytes(s, 16, b"\n");
}

// Writes the line of slot k, counted from 0.
fn write_slot(s: &mut [u8], k: usize, epoch: u32, byte: u8)
    requires { (length s.old ≡ 20) × (k < 64) }
    ensures { s.new ≡ slot_line k epoch byte }
{
    spell::put_number(s, 0, 4, k as u64 + 1);
    spell::put_number(s, 4, 11, epoch as u64);
    spell::put_number(s, 15, 4, byte as u64);
    copy::put_bytes(s, 19, b"\n");
}

// Writes the line of slot k behind those of the slots before it.
fn put_slot(out: &mut [u8], k: usize, epoch: u32, byte: u8)
    requires { (length out.old ≡ 1297) × (k < 64) }
    ensures { out.new ≡ spliced out.old (17 + 20 * k) (slot_line k epoch byte) }
{
    let at = HEADING_SIZE + LINE_SIZE * k;
    let e = at + LINE_SIZE;
    write_slot(&mut out[at..e], k, epoch, byte);
}

// Writes the lines of the first `count` slots behind the first line. Their epochs begin at `from`.
pub fn put_slots(
    out: &mut [u8],
    count: usize,
    epochs: &[u32; SURVEY_SLOTS],
    from: usize,
    plan: &[u8; MAX_SLOTS],
)
    requires { (length out.old ≡ 1297) × (count ≤ 64) × (from + 64 ≤ 448) }
    ensures { take (17 + 20 * count) out.new
        ≡ take 17 out.old ++ joined count (line_from epochs.now from plan.now) }
{
    for k in 0..count {
        put_slot(out, k, epochs[from + k], plan[k]);
    }
}

// The printing program's work: from the bytes of an input to the bytes of its output.
#![tactic(auto)]

ghost use Rattle.std.specs.Prelude.{ℕ, ◌+◌, ◌<◌, ◌≤◌, ◌≡◌, ◌++◌, length, get_or};
ghost use Rattle.search.specs.Search.{joined};
ghost use Rattle.image.specs.View.{View};
ghost use Rattle.planner.specs.Setting.{Setting};
ghost use Rattle.planner.specs.Survey.{SurveyIs, PlanIs};
ghost use Rattle.report.specs.Report.{refused_line, head_line, plan_lines, cluster_report, report_of, Prints};
ghost use Rattle.report.specs.Lines.{line_from};

use compose::{HEADING_SIZE, Heading, LINE_SIZE, PAGE_SIZE, REFUSED_SIZE};
use decide::{Opening, open_cluster};
use image::{MAX_SLOTS, refusal};
use locate::OLD_EDITION;
use planner::SURVEY_SLOTS;
use print_command::{COMMAND_SIZE, present_word, read_command};
use record::Shape;
use report::Command;

// The status of a plan that can be made, and of one that waits.
const READY: usize = 0;

const WAITING: usize = 1;

// An input has at most so many bytes.
const MAX_INPUT: usize = 65536;

// What is printed: the first `count` bytes.
#[derive(Drop)]
pub struct Report {
    pub bytes: [u8; PAGE_SIZE],
    pub count: usize,
}

// Room for the longest output. Only its length is promised, so that no proof opens 1,297 zeros.
fn empty_page() -> [u8; PAGE_SIZE]
    ensures { 1297 ≡ length result }
{
    [0u8; PAGE_SIZE]
}

// A refusal, alone.
fn report_refusal(number: u64) -> Report
    ensures { Prints (refused_line number) result.bytes result.count }
{
    let mut bytes = empty_page();
    compose::write_refused(&mut bytes[0..REFUSED_SIZE], number);
    Report {
        bytes: bytes,
        count: REFUSED_SIZE,
    }
}

// The first line, and a line for each of the first `count` slots of the leader. Their epochs begin at `from`.
fn report_slots(
    heading: Heading,
    count: usize,
    epochs: &[u32; SURVEY_SLOTS],
    from: usize,
    plan: &[u8; MAX_SLOTS],
) -> Report
    requires { (count ≤ 64) × (from + 64 ≤ 448) }
    ensures { Prints (head_line heading.n heading.leading heading.status heading.number
        ++ joined count (line_from epochs.now from plan.now)) result.bytes result.count }
{
    let mut bytes = empty_page();
    compose::write_heading(&mut bytes[0..HEADING_SIZE], heading);
    compose::put_slots(&mut bytes, count, epochs, from, plan);
    Report {
        bytes: bytes,
        count: HEADING_SIZE + LINE_SIZE * count,
    }
}

// The plan of a cluster that was opened.
fn report_plan(n: usize, leading: usize, opening: Opening) -> Report
    requires { (opening.leader < 7) × (get_or opening.survey.lengths opening.leader 0 ≤ 64) }
    ensures { (S : Setting) (W : ℕ → View) → SurveyIs S W n opening.leader opening.survey → PlanIs S W opening.plan
        → Prints (plan_lines n leading S W) result.bytes result.count }
{
    let leader = opening.leader;
    let survey = opening.survey;
    let plan = opening.plan;
    let count = survey.lengths[leader];
    let from = leader * MAX_SLOTS;
    let end = plan.end;
    let waiting = plan.waiting;
    if waiting < end {
        let heading = Heading {
            n,
            leading,
            status: WAITING,
            number: waiting + 1,
        };
        return report_slots(heading, count, &survey.epochs, from, &plan.bytes);
    }
    let heading = Heading {
        n,
        leading,
        status: READY,
        number: end,
    };
    report_slots(heading, count, &survey.epochs, from, &plan.bytes)
}

// The plan of a cluster, or the refusal of planning.
fn report_cluster(cluster: &[u8], shape: Shape, leading: usize, present: u32) -> Report
    ensures { Prints (cluster_report shape leading present cluster.now) result.bytes result.count }
{
    let opening = open_cluster(cluster, shape, leading, present);
    let refusal = opening.refusal;
    if refusal != 0 {
        return report_refusal(refusal as u64);
    }
    report_plan(shape.n, leading, opening)
}

// All that is printed for an input. Its cluster is of edition 1.
pub fn report_of(input: &[u8]) -> Report
    ensures { Prints (report_of input.now) result.bytes result.count }
{
    if MAX_INPUT < input.len() {
        return report_refusal(refusal::BUFFER_LENGTH as u64);
    }
    let Command::Well {
        n,
        m,
        leading,
        present,
    } = read_command(input)
    else {
        return report_refusal(refusal::COMMAND_LINE as u64);
    };
    report_cluster(
        &input[COMMAND_SIZE..],
        Shape {
            n,
            m,
            edition: OLD_EDITION,
            witnesses: 0,
        },
        leading,
        present_word(n, leading, present),
    )
}

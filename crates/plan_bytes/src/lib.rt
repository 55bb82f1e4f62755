// The plan of a cluster: its bytes filled, its answer and the rows of its table; refusal 13.
#![tactic(auto)]

ghost use Rattle.std.specs.Prelude.{ℕ, ◌≡◌, length};
ghost use Rattle.image.specs.View.{View};
ghost use Rattle.planner.specs.Setting.{Setting, setting_of};
ghost use Rattle.planner.specs.Plan.{views_in, lent_refusal, plan_refusal};
ghost use Rattle.planner.specs.Answers.{plan_numbers, plan_left};
ghost use Rattle.planner.specs.Tabulated.{answer_at, Outcome};

use copy::copy_bytes;
use decide::open_cluster;
use image::refusal;
use planner::PlanAnswer;
use record::Shape;
use tabulate::{PlanOutcome, no_rows, survey_rows};

// The answer of a plan: the number of the lowest waiting slot, or the final length.
pub fn plan_answer(end: usize, waiting: usize) -> PlanAnswer
    ensures { plan_numbers result ≡ answer_at end waiting }
{
    if waiting < end {
        return PlanAnswer::Waiting(waiting + 1);
    }
    PlanAnswer::Ready(end)
}

// Refusal 13, after all else that applies: the plan has not m bytes, or the table not n rows.
fn lent_refusal(refusal: u8, shape: Shape, bytes: usize, rows: usize) -> u8
    ensures { result ≡ lent_refusal refusal shape bytes rows }
{
    if refusal != 0 {
        return refusal;
    }
    if bytes != shape.m {
        return refusal::LENT_LENGTH;
    }
    if rows != shape.n {
        return refusal::LENT_LENGTH;
    }
    refusal::NONE
}

// The outcome of a refused call.
fn refused(refusal: u8) -> PlanOutcome
    requires { refusal ≡ 0 → ⊥ }
    ensures { (S : Setting) (W : ℕ → View) → Outcome refusal S W result.answer result.count result.rows }
{
    let rows = no_rows();
    PlanOutcome {
        answer: PlanAnswer::Refused(refusal),
        count: 0,
        rows,
    }
}

// Plans a cluster and fills the plan's bytes. The rows of a table of `rows` rows are in the outcome.
pub fn plan_bytes(
    plan: &mut [u8],
    cluster: &[u8],
    shape: Shape,
    leading: usize,
    present: u32,
    rows: usize,
) -> PlanOutcome
    ensures { Outcome (plan_refusal shape leading present cluster.now (length plan.old) rows)
        (setting_of shape leading present) (views_in (setting_of shape leading present) cluster.now) result.answer result.count result.rows
        × (plan.new ≡ plan_left shape leading present cluster.now plan.old rows) }
{
    let opening = open_cluster(cluster, shape, leading, present);
    let refusal = lent_refusal(opening.refusal, shape, plan.len(), rows);
    if refusal != 0 {
        return refused(refusal);
    }
    let found = opening.plan;
    let bytes = found.bytes;
    let n = shape.n;
    let m = shape.m;
    copy_bytes(plan, &bytes[0..m]);
    let survey = opening.survey;
    let rows = survey_rows(survey.readable, &survey.lengths, &survey.epochs, n);
    let answer = plan_answer(found.end, found.waiting);
    PlanOutcome {
        answer,
        count: n,
        rows,
    }
}

// The planner's call: the plan and the table of a cluster.
#![tactic(auto)]

ghost use Rattle.std.specs.Prelude.{◌≡◌, length};
ghost use Rattle.planner.specs.Answers.{plan_numbers, plan_call_numbers, plan_left, rows_left};

use plan_bytes::plan_bytes;
use planner::{PlanAnswer, ReplicaRow};
use record::Shape;
use tabulate::{PlanOutcome, fill_rows};

// How many rows an outcome has to fill.
fn outcome_count(found: PlanOutcome) -> usize
    ensures { result ≡ found.count }
{
    found.count
}

// The answer of an outcome.
fn outcome_answer(found: PlanOutcome) -> PlanAnswer
    ensures { result ≡ found.answer }
{
    found.answer
}

// The planner's call: the plan of m bytes and the table of n rows are filled, unless the call is refused.
pub fn plan_cluster(
    cluster: &[u8],
    shape: Shape,
    leading: usize,
    present: u32,
    plan: &mut [u8],
    rows: &mut [ReplicaRow],
) -> PlanAnswer
    ensures { (plan_numbers result
        ≡ plan_call_numbers shape leading present cluster.now (length plan.old) (length rows.old))
        × (plan.new ≡ plan_left shape leading present cluster.now plan.old (length rows.old))
        × (rows.new ≡ rows_left shape leading present cluster.now (length plan.old) rows.old) }
{
    let found = plan_bytes(plan, cluster, shape, leading, present, rows.len());
    fill_rows(rows, found, outcome_count(found));
    outcome_answer(found)
}

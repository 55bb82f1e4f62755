// The call that plans a cluster, for any lent bytes.
#![tactic(auto)]

ghost use Rattle.std.specs.Prelude.{◌≡◌};
ghost use Rattle.planner.specs.Answers.{plan_numbers};
ghost use Rattle.recovery.specs.Answers.{plan_result};
ghost use Rattle.recovery.specs.HandedOut.{result_refusal, result_status, result_number};
ghost use Rattle.call_plans.specs.Plans.{PlanCall};

use image::refusal;
use planner::{PlanAnswer, ReplicaRow};
use record::Shape;

// The status of a plan that can be made, and of one that waits.
const READY: u8 = 0;

const WAITING: u8 = 1;

// Hands out a plan's answer: 0 and the final length, or 1 and the lowest waiting slot; or answers the refusal.
fn hand_out(answer: PlanAnswer, status: &mut u8, number: &mut usize) -> u8
    ensures { (result ≡ result_refusal (plan_result (plan_numbers answer)))
        × (status.new ≡ result_status (plan_result (plan_numbers answer)) status.old)
        × (number.new ≡ result_number (plan_result (plan_numbers answer)) number.old) }
{
    match answer {
        PlanAnswer::Ready(length) => {
            *status = READY;
            *number = length;
            refusal::NONE
        }
        PlanAnswer::Waiting(slot) => {
            *status = WAITING;
            *number = slot;
            refusal::NONE
        }
        PlanAnswer::Refused(refusal) => refusal,
    }
}

// Plans: fills the plan of m bytes and the table of n rows, and hands out 0 and the final length, or 1 and the lowest waiting slot.
pub fn plan(
    cluster: &[u8],
    shape: Shape,
    leading: usize,
    present: u32,
    plan: &mut [u8],
    rows: &mut [ReplicaRow],
    status: &mut u8,
    number: &mut usize,
) -> u8
    ensures { PlanCall cluster.now shape leading present plan.old plan.new rows.old rows.new status.old status.new number.old number.new result }
{
    hand_out(
        plan::plan_cluster(cluster, shape, leading, present, plan, rows),
        status,
        number,
    )
}

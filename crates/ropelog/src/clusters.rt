// The calls about a cluster, for any lent bytes: 0, or document 01's refusal by number. A refused call changes nothing that was lent.
ghost use Rattle.std.specs.Prelude.{◌≡◌, length};
ghost use Rattle.image.specs.Refusal.{unless_refused};
ghost use Rattle.protocol.specs.Call.{step, run};
ghost use Rattle.protocol.specs.CallResult.{call_bytes};
ghost use Rattle.recovery.specs.Answers.{numbers};
ghost use Rattle.planner.specs.Answers.{plan_in, rows_in};
ghost use Rattle.recovery.specs.HandedOut.{plan_called, step_called, run_called, result_refusal, result_status, result_number, result_replica, result_slot, result_kind, result_stores};

use planner::ReplicaRow;
use record::Shape;

// Plans: fills the plan of m bytes and the table of n rows, and hands out 0 and the final length, or 1 and the lowest waiting slot.
#[unsafe(no_mangle)]
pub extern "C" fn rope_plan(
    cluster: &[u8],
    shape: Shape,
    leading: usize,
    present: u32,
    plan: &mut [u8],
    rows: &mut [ReplicaRow],
    status: &mut u8,
    number: &mut usize,
) -> u8
    ensures { (result ≡ result_refusal (plan_called shape leading present cluster.now
        (length plan.old) (length rows.old)))
        × (plan.new ≡ unless_refused result (plan_in shape leading present cluster.now) plan.old)
        × (rows.new ≡ unless_refused result (rows_in shape leading present cluster.now) rows.old)
        × (status.new ≡ result_status (plan_called shape leading present cluster.now
        (length plan.old) (length rows.old)) status.old)
        × (number.new ≡ result_number (plan_called shape leading present cluster.now
        (length plan.old) (length rows.old)) number.old) }
{
    call_plans::plan(cluster, shape, leading, present, plan, rows, status, number)
}

// Makes the first store still outstanding. Hands out 0 if there is none; 1 and the lowest waiting slot; or 2 and the store's replica,
// slot and kind.
#[unsafe(no_mangle)]
pub extern "C" fn rope_step(
    cluster: &mut [u8],
    shape: Shape,
    leading: usize,
    present: u32,
    status: &mut u8,
    replica: &mut usize,
    slot: &mut usize,
    kind: &mut u8,
) -> u8
    ensures { (result ≡ result_refusal (step_called shape leading present cluster.old))
        × (cluster.new ≡ call_bytes (numbers shape leading present) step cluster.old)
        × (status.new ≡ result_status (step_called shape leading present cluster.old) status.old)
        × (replica.new ≡ result_replica (step_called shape leading present cluster.old) replica.old)
        × (slot.new ≡ result_slot (step_called shape leading present cluster.old) slot.old)
        × (kind.new ≡ result_kind (step_called shape leading present cluster.old) kind.old) }
{
    call_clusters::steps::step(
        cluster, shape, leading, present, status, replica, slot, kind,
    )
}

// Makes stores while the budget lasts. Hands out 0 if none is outstanding, 2 if one is, or 1 and the lowest waiting slot; and how many it
// made, 0 if it waits.
#[unsafe(no_mangle)]
pub extern "C" fn rope_run(
    cluster: &mut [u8],
    shape: Shape,
    leading: usize,
    present: u32,
    budget: u64,
    status: &mut u8,
    stores: &mut u64,
    slot: &mut usize,
) -> u8
    ensures { (result ≡ result_refusal (run_called shape leading present cluster.old budget))
        × (cluster.new ≡ call_bytes (numbers shape leading present) (run budget) cluster.old)
        × (status.new ≡ result_status (run_called shape leading present cluster.old budget) status.old)
        × (stores.new ≡ result_stores (run_called shape leading present cluster.old budget) stores.old)
        × (slot.new ≡ result_slot (run_called shape leading present cluster.old budget) slot.old) }
{
    call_clusters::runs::run(
        cluster, shape, leading, present, budget, status, stores, slot,
    )
}

// A run.
ghost use Rattle.call_clusters.specs.Clusters.{RunCall};

use crate::{OUTSTANDING, RECOVERED, WAITING};
use image::refusal;
use record::Shape;

// Makes stores while the budget lasts. Hands out 0 if none is outstanding, 2 if one is, or 1 and the lowest waiting slot; and how many it
// made, 0 if it waits.
pub fn run(
    cluster: &mut [u8],
    shape: Shape,
    leading: usize,
    present: u32,
    budget: u64,
    status: &mut u8,
    stores: &mut u64,
    slot: &mut usize,
) -> u8
    ensures { RunCall cluster.old cluster.new shape leading present budget status.old status.new stores.old stores.new slot.old slot.new result }
{
    match run::run_cluster(cluster, shape, leading, present, budget) {
        recovery::RunAnswer::Recovered(made) => {
            *status = RECOVERED;
            *stores = made;
            refusal::NONE
        }
        recovery::RunAnswer::Spent(spent) => {
            *status = OUTSTANDING;
            *stores = spent;
            refusal::NONE
        }
        recovery::RunAnswer::Waiting {
            slot: waiting,
            stores: none,
        } => {
            *status = WAITING;
            *stores = none;
            *slot = waiting;
            refusal::NONE
        }
        recovery::RunAnswer::Refused(refusal) => refusal,
    }
}

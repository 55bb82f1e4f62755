// A step.
ghost use Rattle.call_clusters.specs.Clusters.{StepCall};

use crate::{OUTSTANDING, RECOVERED, WAITING};
use image::refusal;
use record::Shape;

// Makes the first store still outstanding. Hands out 0 if there is none; 1 and the lowest waiting slot; or 2 and the store's replica,
// slot and kind.
pub fn step(
    cluster: &mut [u8],
    shape: Shape,
    leading: usize,
    present: u32,
    status: &mut u8,
    replica: &mut usize,
    slot: &mut usize,
    kind: &mut u8,
) -> u8
    ensures { StepCall cluster.old cluster.new shape leading present status.old status.new replica.old replica.new slot.old slot.new kind.old kind.new result }
{
    match step::step_cluster(cluster, shape, leading, present) {
        recovery::StepAnswer::Stored {
            replica: on,
            slot: at,
            kind: what,
        } => {
            *status = OUTSTANDING;
            *replica = on;
            *slot = at;
            *kind = what;
            refusal::NONE
        }
        recovery::StepAnswer::Recovered => {
            *status = RECOVERED;
            refusal::NONE
        }
        recovery::StepAnswer::Waiting(waiting) => {
            *status = WAITING;
            *slot = waiting;
            refusal::NONE
        }
        recovery::StepAnswer::Refused(refusal) => refusal,
    }
}

// A cluster's refusals: 1 to 3, 11 and 22 of what a call names, 12 of its leader, 21 of what is seen.
#![tactic(auto)]

ghost use Rattle.std.specs.Prelude.{◌<◌, ◌≤◌, ◌≡◌, not};
ghost use Rattle.image.specs.Refusal.{refuse};
ghost use Rattle.planner.specs.Plan.{shape_refusal};
ghost use Rattle.planner.specs.Survey.{leader_test, same_numbers};

use image::{MAX_REPLICAS, MAX_SLOTS, refusal};
use locate::image_at;
use record::Shape;
use survey_sets::{contains, is_within};

// Refusals 1, 2, 3, 11 and 22: what is named, and the size of the buffer.
#[tactic(auto, using(crate::proofs::RefusalLaws::shape_is, image::proofs::CallLaws::size_high, planner::proofs::ShapeLaws::cluster_fits), unfolding(planner::specs::Sets::is_within, image::specs::View::is_slots))]
pub fn shape_refusal(size: usize, shape: Shape, present: u32) -> u8
    ensures { result ≡ shape_refusal shape present size }
{
    if shape.m < 1 || MAX_SLOTS < shape.m {
        return refusal::SLOT_COUNT;
    }
    if !vet::is_size(shape.n) || !vet::is_edition(shape.edition) {
        return refusal::REPLICA_COUNT;
    }
    if size != image_at(shape, shape.n) {
        return refusal::BUFFER_LENGTH;
    }
    if !is_within(present, shape.n) {
        return refusal::PRESENT;
    }
    if !is_within(shape.witnesses, shape.n) {
        return refusal::WITNESSES;
    }
    refusal::NONE
}

// Refusal 12: the leader's number, from 1, is out of range, or the replica is not readable, or a witness.
#[tactic(auto, unfolding(planner::specs::Survey::leader_test, image::specs::Refusal::refuse, image::specs::View::is_replica))]
pub fn leader_refusal(readable: u32, witnesses: u32, n: usize, leading: usize) -> u8
    requires { n ≤ 7 }
    ensures { result ≡ leader_test readable witnesses n leading }
{
    let is_replica = 1 <= leading && leading <= n;
    if is_replica && contains(readable, leading - 1) && !contains(witnesses, leading - 1) {
        refusal::NONE
    } else {
        refusal::LEADER
    }
}

// Whether the logs of all readable replicas begin at the leader's first index. The leader counts from 0.
fn same_firsts(readable: u32, firsts: &[u32; MAX_REPLICAS], n: usize, leader: usize) -> bool
    requires { (n ≤ 7) × (leader < n) }
    ensures { result ≡ same_numbers n leader readable firsts.now }
{
    (0..n).all(|c| !contains(readable, c) || firsts[c] == firsts[leader])
}

// Refusal 21: the log of a readable replica begins at another index than the leader's. The leader counts from 0.
#[tactic(auto, unfolding(image::specs::Refusal::refuse))]
pub fn firsts_refusal(readable: u32, firsts: &[u32; MAX_REPLICAS], n: usize, leader: usize) -> u8
    requires { (n ≤ 7) × (leader < n) }
    ensures { result ≡ refuse 21 (not (same_numbers n leader readable firsts.now)) }
{
    if same_firsts(readable, firsts, n, leader) {
        refusal::NONE
    } else {
        refusal::FIRST_DIFFERS
    }
}

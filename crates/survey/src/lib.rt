// What is seen of each replica, in numbers: each present image is read once.
#![tactic(auto)]

ghost use Rattle.std.specs.Prelude.{ℕ, ◌<◌, ◌≤◌, ◌≡◌, true, length, IfOk};
ghost use Rattle.image.specs.Refusal.{refusal_of};
ghost use Rattle.image.specs.View.{is_size, is_slots, image_refusal};
ghost use Rattle.image.specs.Seen.{Seen};
ghost use Rattle.image.specs.Cluster.{image_at, decode};
ghost use Rattle.planner.specs.Setting.{setting_of};
ghost use Rattle.planner.specs.Plan.{views_in};
ghost use Rattle.planner.specs.Survey.{Surveyed};

use image::MAX_REPLICAS;
use image::refusal::Refusal;
use locate::{image_at, image_size, is_witness};
use planner::{SURVEY_SLOTS, Survey};
use record::Shape;
use survey_sets::{contains, insert};
use survey_slots::copy_slots;
use view::{ImageView, view_image};

// What is seen of the image of replica c.
#[tactic(auto, using(image::proofs::CallLaws::slots_high, planner::proofs::SeenLaws::image_there))]
fn view_replica(cluster: &[u8], shape: Shape, c: usize) -> Result<ImageView, Refusal>
    requires { (shape.n ≤ 7) × (c < shape.n) × (is_slots shape.m ≡ true) × (length cluster.now ≡ image_at shape shape.n) }
    ensures refusal { refusal_of result ≡ image_refusal shape.m (decode shape cluster.now c) }
    ensures seen { IfOk result (λ v. Seen shape.m (decode shape cluster.now c) v.first v.length v.slots) }
{
    let start = image_at(shape, c);
    let end = start + image_size(shape, c + 1);
    view_image(&cluster[start..end], shape, c + 1)
}

// Surveys the present replicas of a cluster. An image that is refused leaves its replica unreadable.
#[tactic(auto, using(image::proofs::CallLaws::size_high))]
pub fn survey_cluster(cluster: &[u8], shape: Shape, present: u32) -> Survey
    requires { (is_size shape.n ≡ true) × (is_slots shape.m ≡ true) × (length cluster.now ≡ image_at shape shape.n) }
    ensures { (leading : ℕ) → Surveyed shape.n shape.m (views_in (setting_of shape leading present) cluster.now)
        result.readable result.firsts result.lengths result.conditions result.epochs }
{
    let mut readable: u32 = 0;
    let mut firsts = [0u32; MAX_REPLICAS];
    let mut lengths = [0usize; MAX_REPLICAS];
    let mut conditions = [0u8; SURVEY_SLOTS];
    let mut epochs = [0u32; SURVEY_SLOTS];
    'replicas: for c in 0..shape.n {
        if !contains(present, c) {
            continue;
        }
        let Ok(view) = view_replica(cluster, shape, c) else {
            continue;
        };
        readable = insert(readable, c);
        firsts[c] = view.first;
        lengths[c] = view.length;
        let witness = is_witness(shape, c + 1);
        copy_slots(&mut conditions, &mut epochs, c, witness, view);
    }
    Survey {
        readable,
        firsts,
        lengths,
        conditions,
        epochs,
    }
}

// What is seen of one replica copied to its place among all.
#![tactic(auto)]

ghost use Rattle.std.specs.Prelude.{◌<◌, ◌≡◌, length};
ghost use Rattle.image.specs.View.{condition_number};
ghost use Rattle.image.specs.Seen.{slot_in};
ghost use Rattle.planner.specs.Survey.{Copied, number_as};

pub mod by_number; // by_number.rt: the same of conditions and epochs by number

use image::MAX_SLOTS;
use image::condition::{self, Condition};
use planner::SURVEY_SLOTS;
use view::ImageView;

// A condition's number as it is seen of a witness, which lacks no entry where it has a record, or of a card.
#[tactic(auto, unfolding(planner::specs::Survey::number_as, image::specs::View::is_unused, image::specs::View::is_lost), using(planner::proofs::SeenLaws::condition_byte),)]
fn condition_as(condition: Condition, witness: bool) -> u8
    ensures { result ≡ number_as witness (condition_number condition) }
{
    if witness && !condition.is_unused() && !condition.is_lost() {
        condition::RECORD_ONLY
    } else {
        condition as u8
    }
}

// Copies what is seen of replica c, a witness or a card, to its slots.
pub fn copy_slots(
    conditions: &mut [u8; SURVEY_SLOTS],
    epochs: &mut [u32; SURVEY_SLOTS],
    c: usize,
    witness: bool,
    view: ImageView,
)
    requires { (c < 7) × (length conditions.old ≡ 448) × (length epochs.old ≡ 448) }
    ensures conditions { Copied c conditions.old (λ k. number_as witness (condition_number (slot_in view.slots k).condition)) conditions.new 64 }
    ensures epochs { Copied c epochs.old (λ k. (slot_in view.slots k).epoch) epochs.new 64 }
{
    for k in 0..MAX_SLOTS {
        let slot = view.slots[k];
        conditions[c * MAX_SLOTS + k] = condition_as(slot.condition, witness);
        epochs[c * MAX_SLOTS + k] = slot.epoch;
    }
}

// The same of conditions and epochs by number, as a table holds them: any number is copied as it is, but of a witness.
ghost use Rattle.std.specs.Prelude.{◌<◌, ◌≡◌, length, get_or};
ghost use Rattle.planner.specs.Survey.{Copied, number_as};

use image::MAX_SLOTS;
use image::condition::{self, Condition};
use planner::SURVEY_SLOTS;

// A condition's number as it is seen of a witness, which lacks no entry where it has a record, or of a card.
#[tactic(auto, unfolding(planner::specs::Survey::number_as))]
fn condition_as(condition: u8, witness: bool) -> u8
    ensures { result ≡ number_as witness condition }
{
    if witness && condition != condition::UNUSED && condition != Condition::Lost as u8 {
        condition::RECORD_ONLY
    } else {
        condition
    }
}

// Copies what is seen of replica c, a witness or a card, to its slots.
pub fn copy_slots(
    conditions: &mut [u8; SURVEY_SLOTS],
    epochs: &mut [u32; SURVEY_SLOTS],
    c: usize,
    witness: bool,
    seen_conditions: &[u8; MAX_SLOTS],
    seen_epochs: &[u32; MAX_SLOTS],
)
    requires { (c < 7) × (length conditions.old ≡ 448) × (length epochs.old ≡ 448) }
    ensures conditions { Copied c conditions.old (λ k. number_as witness (get_or seen_conditions.now k 0)) conditions.new 64 }
    ensures epochs { Copied c epochs.old (λ k. get_or seen_epochs.now k 0) epochs.new 64 }
{
    for k in 0..MAX_SLOTS {
        conditions[c * MAX_SLOTS + k] = condition_as(seen_conditions[k], witness);
        epochs[c * MAX_SLOTS + k] = seen_epochs[k];
    }
}

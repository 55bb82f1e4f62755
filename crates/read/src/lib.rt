// Reading a card for the caller: the length of its log, its epochs and its verdicts.
#![tactic(auto)]

ghost use Rattle.std.specs.Prelude.{◌≤◌, ◌≡◌, length};
ghost use Rattle.search.specs.Search.{listed};
ghost use Rattle.image.specs.Seen.{slot_in};
ghost use Rattle.image.specs.Answers.{log_numbers, read_call_numbers, epochs_left, verdicts_left};

pub mod by_number; // by_number.rt: the same of epochs by number

use image::condition::Slot;
use image::refusal::Refusal;
use image::{Log, MAX_SLOTS};
use read_verdicts::fill_verdicts;
use record::Shape;
use view_open::open_card;

// Gives the caller the epochs of its slots.
pub fn fill_epochs(slots: &[Slot; MAX_SLOTS], epochs: &mut [u32])
    requires { length epochs.old ≤ 64 }
    ensures { epochs.new ≡ listed (length epochs.old) (λ k. (slot_in slots.now k).epoch) }
{
    for (k, epoch) in epochs.iter_mut().enumerate() {
        *epoch = slots[k].epoch;
    }
}

// Reads a card's image: its log's length and its first index, and into the lent buffers the epoch and the verdict of each slot.
pub fn read_image(
    image: &[u8],
    shape: Shape,
    replica: usize,
    epochs: &mut [u32],
    verdicts: &mut [u8],
) -> Result<Log, Refusal>
    ensures { (log_numbers result
        ≡ read_call_numbers shape replica image.now (length epochs.old) (length verdicts.old))
        × (epochs.new ≡ epochs_left shape replica image.now epochs.old (length verdicts.old))
        × (verdicts.new ≡ verdicts_left shape replica image.now (length epochs.old) verdicts.old) }
{
    let view = open_card(image, shape, replica)?;
    if epochs.len() != shape.m || verdicts.len() != shape.m {
        return Err(Refusal::LentLength);
    }
    fill_epochs(&view.slots, epochs);
    fill_verdicts(image, shape, view.first, &view.slots, view.length, verdicts);
    Ok(Log {
        length: view.length,
        first: view.first,
    })
}

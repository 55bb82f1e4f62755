// Reading a witness for the caller: the length of its log and its epochs.
#![tactic(auto)]

ghost use Rattle.std.specs.Prelude.{◌≡◌, length};
ghost use Rattle.image.specs.Answers.{log_numbers, witness_call_numbers, witness_epochs_left};

use image::Log;
use image::refusal::Refusal;
use read::fill_epochs;
use record::Shape;
use view_open::open_witness;

// Reads a witness's image: its log's length and its first index, and into the lent buffer the epoch of each slot (document 02, Seven).
pub fn read_witness(
    image: &[u8],
    shape: Shape,
    replica: usize,
    epochs: &mut [u32],
) -> Result<Log, Refusal>
    ensures { (log_numbers result ≡ witness_call_numbers shape replica image.now (length epochs.old))
        × (epochs.new ≡ witness_epochs_left shape replica image.now epochs.old) }
{
    let view = open_witness(image, shape, replica)?;
    if epochs.len() != shape.m {
        return Err(Refusal::LentLength);
    }
    fill_epochs(&view.slots, epochs);
    Ok(Log {
        length: view.length,
        first: view.first,
    })
}

// The calls about one witness's image, for any lent bytes.
#![tactic(auto)]

ghost use Rattle.call_witnesses.specs.Witnesses.{WitnessAppendCall, WitnessReadCall};

use call_images::{DONE, refusal_number};
use record::Shape;

// Appends an epoch to the first unused slot, whose number it hands out.
pub fn witness_append(
    image: &mut [u8],
    shape: Shape,
    replica: usize,
    epoch: u32,
    slot: &mut usize,
) -> u8
    ensures { WitnessAppendCall image.old image.new shape replica epoch slot.old slot.new result }
{
    match append_witness::append_witness(image, shape, replica, epoch) {
        Ok(written) => {
            *slot = written;
            DONE
        }
        Err(unwritten) => refusal_number(unwritten),
    }
}

// Reads a witness's image: hands out its log's length and the index that it begins at, and in the lent buffer the epoch of each slot.
pub fn witness_read(
    image: &[u8],
    shape: Shape,
    replica: usize,
    epochs: &mut [u32],
    used: &mut usize,
    first: &mut u32,
) -> u8
    ensures { WitnessReadCall image.now shape replica epochs.old epochs.new used.old used.new first.old first.new result }
{
    match read_witness::read_witness(image, shape, replica, epochs) {
        Ok(log) => {
            *used = log.length;
            *first = log.first;
            DONE
        }
        Err(unread) => refusal_number(unread),
    }
}

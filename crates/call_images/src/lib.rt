// The calls about one image: a fresh one of either kind, a card appended to and read, for any lent bytes.
#![tactic(auto)]

ghost use Rattle.std.specs.Prelude.{◌≡◌};
ghost use Rattle.image.specs.Refusal.{refusal_number};
ghost use Rattle.call_images.specs.Images.{FormatCall, AppendCall, ReadCall};

use image::refusal::Refusal;
use record::Shape;

// The answer of a call that is not refused.
pub const DONE: u8 = 0;

// A refusal's number, as C has it.
pub fn refusal_number(refusal: Refusal) -> u8
    ensures { result ≡ refusal_number refusal }
{
    refusal as u8
}

// Makes a fresh image, of a log that begins at this index, in a buffer of its size.
pub fn format(image: &mut [u8], shape: Shape, replica: usize, first: u32) -> u8
    ensures { FormatCall image.old image.new shape replica first result }
{
    match format::format_image(image, shape, replica, first) {
        Ok(()) => DONE,
        Err(unformatted) => refusal_number(unformatted),
    }
}

// Appends to the first unused slot, whose number it hands out.
pub fn append(
    image: &mut [u8],
    shape: Shape,
    replica: usize,
    epoch: u32,
    payload: &[u8],
    slot: &mut usize,
) -> u8
    ensures { AppendCall image.old image.new shape replica epoch payload.now slot.old slot.new result }
{
    match append::append_entry(image, shape, replica, epoch, payload) {
        Ok(written) => {
            *slot = written;
            DONE
        }
        Err(unwritten) => refusal_number(unwritten),
    }
}

// Reads an image: hands out its log's length and the index that it begins at, and in the lent buffers the epoch and the verdict of each
// slot.
pub fn read(
    image: &[u8],
    shape: Shape,
    replica: usize,
    epochs: &mut [u32],
    verdicts: &mut [u8],
    used: &mut usize,
    first: &mut u32,
) -> u8
    ensures { ReadCall image.now shape replica epochs.old epochs.new verdicts.old verdicts.new used.old used.new first.old first.new result }
{
    match read::read_image(image, shape, replica, epochs, verdicts) {
        Ok(log) => {
            *used = log.length;
            *first = log.first;
            DONE
        }
        Err(unread) => refusal_number(unread),
    }
}

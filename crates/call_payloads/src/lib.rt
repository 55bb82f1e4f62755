// The calls about the payload of a slot, for any lent bytes.
#![tactic(auto)]

ghost use Rattle.call_payloads.specs.Payloads.{HasPayloadCall, PayloadCall};

use call_images::{DONE, refusal_number};
use record::Shape;

// Hands out 1 if a slot has a payload, and 0 if not.
pub fn has_payload(image: &[u8], shape: Shape, replica: usize, slot: usize, has: &mut u8) -> u8
    ensures { HasPayloadCall image.now shape replica slot has.old has.new result }
{
    match read_payload::has_payload(image, shape, replica, slot) {
        Ok(found) => {
            *has = u8::from(found);
            DONE
        }
        Err(refusal) => refusal_number(refusal),
    }
}

// Hands out a slot's payload as a part of the image: where it begins, and its length. If there is none, or the image is refused, it is
// the empty part at 0. Nothing is answered: `has_payload` says whether there is one.
pub fn payload(
    image: &[u8],
    shape: Shape,
    replica: usize,
    slot: usize,
    at: &mut usize,
    size: &mut usize,
)
    ensures { PayloadCall image.now shape replica slot at.new size.new }
{
    let span = read_payload::payload_span(image, shape, replica, slot);
    *at = span.start;
    *size = span.end - span.start;
}

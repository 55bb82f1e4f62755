// The calls about one image, for any lent bytes: 0, or document 01's refusal by number. A refused call changes nothing that was lent.
ghost use Rattle.std.specs.Prelude.{suc, ◌≡◌, length};
ghost use Rattle.slices.specs.Parts.{part};
ghost use Rattle.image.specs.Image.{first_in, decode_image};
ghost use Rattle.image.specs.View.{card_refusal, log_length};
ghost use Rattle.image.specs.Read.{lent_refusal, epochs_of, verdicts_of, has_payload, payload_of, payload_at};
ghost use Rattle.image.specs.Append.{format_refusal, append_refusal, appended, formatted};
ghost use Rattle.image.specs.Refusal.{unless_refused};
ghost use Rattle.call_payloads.specs.Payloads.{flag};

use record::Shape;

// Makes a fresh image, of a log that begins at this index, in a buffer of its size.
#[unsafe(no_mangle)]
pub extern "C" fn rope_format(image: &mut [u8], shape: Shape, replica: usize, first: u32) -> u8
    ensures { (result ≡ format_refusal shape replica first (length image.old))
        × (image.new ≡ formatted shape replica first image.old) }
{
    call_images::format(image, shape, replica, first)
}

// Appends to the first unused slot, whose number it hands out.
#[unsafe(no_mangle)]
pub extern "C" fn rope_append(
    image: &mut [u8],
    shape: Shape,
    replica: usize,
    epoch: u32,
    payload: &[u8],
    slot: &mut usize,
) -> u8
    ensures { (result ≡ append_refusal shape replica image.old epoch (length payload.now))
        × (image.new ≡ appended shape replica image.old epoch payload.now)
        × (slot.new ≡ unless_refused result (suc (log_length shape.m (decode_image shape replica image.old))) slot.old) }
{
    call_images::append(image, shape, replica, epoch, payload, slot)
}

// Reads an image: hands out its log's length and the index that it begins at, and in the lent buffers the epoch and the verdict of each
// slot.
#[unsafe(no_mangle)]
pub extern "C" fn rope_read(
    image: &[u8],
    shape: Shape,
    replica: usize,
    epochs: &mut [u32],
    verdicts: &mut [u8],
    used: &mut usize,
    first: &mut u32,
) -> u8
    ensures { (result ≡ lent_refusal shape replica image.now (length epochs.old) (length verdicts.old))
        × (epochs.new ≡ unless_refused result (epochs_of shape.m (decode_image shape replica image.now)) epochs.old)
        × (verdicts.new ≡ unless_refused result (verdicts_of shape.m (decode_image shape replica image.now)) verdicts.old)
        × (used.new ≡ unless_refused result (log_length shape.m (decode_image shape replica image.now)) used.old)
        × (first.new ≡ unless_refused result (first_in shape replica image.now) first.old) }
{
    call_images::read(image, shape, replica, epochs, verdicts, used, first)
}

// Hands out 1 if a slot has a payload, and 0 if not.
#[unsafe(no_mangle)]
pub extern "C" fn rope_has_payload(
    image: &[u8],
    shape: Shape,
    replica: usize,
    slot: usize,
    has: &mut u8,
) -> u8
    ensures { (result ≡ card_refusal shape replica image.now)
        × (has.new ≡ unless_refused result (flag (has_payload shape.m (decode_image shape replica image.now) slot)) has.old) }
{
    call_payloads::has_payload(image, shape, replica, slot, has)
}

// Hands out a slot's payload as a part of the image: where it begins, and its length. If there is none, or the image is refused, it is
// the empty part at 0. Nothing is answered: `rope_has_payload` says whether there is one.
#[unsafe(no_mangle)]
pub extern "C" fn rope_payload(
    image: &[u8],
    shape: Shape,
    replica: usize,
    slot: usize,
    at: &mut usize,
    size: &mut usize,
)
    ensures { (at.new ≡ payload_at shape replica image.now slot)
        × (size.new ≡ length (payload_of shape replica image.now slot))
        × (part image.now at.new size.new ≡ payload_of shape replica image.now slot) }
{
    call_payloads::payload(image, shape, replica, slot, at, size);
}

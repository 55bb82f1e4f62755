// The calls about one witness's image, for any lent bytes: 0, or document 01's refusal by number. A witness stores records only (document
// 02, Seven). A fresh image is `rope_format`'s, for both. A refused call changes nothing that was lent.
ghost use Rattle.std.specs.Prelude.{suc, ◌≡◌, length};
ghost use Rattle.image.specs.Image.{first_in, decode_image};
ghost use Rattle.image.specs.View.{log_length};
ghost use Rattle.image.specs.Read.{epochs_of};
ghost use Rattle.image.specs.Witness.{epochs_refusal, record_refusal, record_appended};
ghost use Rattle.image.specs.Refusal.{unless_refused};

use record::Shape;

// Appends an epoch to the first unused slot, whose number it hands out.
#[unsafe(no_mangle)]
pub extern "C" fn rope_witness_append(
    image: &mut [u8],
    shape: Shape,
    replica: usize,
    epoch: u32,
    slot: &mut usize,
) -> u8
    ensures { (result ≡ record_refusal shape replica image.old epoch)
        × (image.new ≡ record_appended shape replica image.old epoch)
        × (slot.new ≡ unless_refused result (suc (log_length shape.m (decode_image shape replica image.old))) slot.old) }
{
    call_witnesses::witness_append(image, shape, replica, epoch, slot)
}

// Reads a witness's image: hands out its log's length and the index that it begins at, and in the lent buffer the epoch of each slot.
#[unsafe(no_mangle)]
pub extern "C" fn rope_witness_read(
    image: &[u8],
    shape: Shape,
    replica: usize,
    epochs: &mut [u32],
    used: &mut usize,
    first: &mut u32,
) -> u8
    ensures { (result ≡ epochs_refusal shape replica image.now (length epochs.old))
        × (epochs.new ≡ unless_refused result (epochs_of shape.m (decode_image shape replica image.now)) epochs.old)
        × (used.new ≡ unless_refused result (log_length shape.m (decode_image shape replica image.now)) used.old)
        × (first.new ≡ unless_refused result (first_in shape replica image.now) first.old) }
{
    call_witnesses::witness_read(image, shape, replica, epochs, used, first)
}

// Appending to a card: an entry and its record.
#![tactic(auto)]

ghost use Rattle.std.specs.Prelude.{◌<◌, ◌≤◌, ◌≡◌, ◌||◌, eqb, leb, ltb, length};
ghost use Rattle.record.specs.Layout.{max_payload};
ghost use Rattle.image.specs.Refusal.{refusal_of, refuse, ◌else◌};
ghost use Rattle.image.specs.Image.{entry_at};
ghost use Rattle.image.specs.Append.{stored, appended};
ghost use Rattle.image.specs.Answers.{numbers, append_call_numbers};

use image::refusal::Refusal;
use locate::{MAX_PAYLOAD, entry_at, index_of, record_at};
use record::Shape;
use view::last_epoch;
use view_open::open_card;
use write_at::{put_entry, put_record};

// Refusals 8 to 10 of an append to an image that is not refused. A witness's has no payload, of 0 bytes.
pub fn vet_append(
    last: u32,
    length: usize,
    m: usize,
    epoch: u32,
    size: usize,
) -> Result<(), Refusal>
    ensures { refusal_of result
        ≡ (refuse 8 (eqb epoch 0 || ltb epoch last) else refuse 9 (ltb max_payload size) else refuse 10 (leb m length)) }
{
    if epoch == 0 || epoch < last {
        return Err(Refusal::AppendEpoch);
    }
    if MAX_PAYLOAD < size {
        return Err(Refusal::AppendPayload);
    }
    if m <= length {
        return Err(Refusal::AppendFull);
    }
    Ok(())
}

// Writes the entry and then the record of slot k, of a log whose first slot has index `first`.
fn put_slot(image: &mut [u8], shape: Shape, first: u32, k: usize, epoch: u32, payload: &[u8])
    requires { (shape.m ≤ 64) × (k < shape.m) × (entry_at shape shape.m ≤ length image.old) × (length payload.now ≤ max_payload) }
    ensures { image.new ≡ stored shape first image.old k epoch payload.now }
{
    let index = index_of(first, k);
    put_entry(image, entry_at(shape, k), epoch, index, payload);
    put_record(image, record_at(shape, k), epoch, index);
}

// Appends to the first unused slot of a card, and answers its number.
pub fn append_entry(
    image: &mut [u8],
    shape: Shape,
    replica: usize,
    epoch: u32,
    payload: &[u8],
) -> Result<usize, Refusal>
    ensures answer { numbers result ≡ append_call_numbers shape replica image.old epoch (length payload.now) }
    ensures image { image.new ≡ appended shape replica image.old epoch payload.now }
{
    let seen = open_card(image, shape, replica)?;
    let used = seen.length;
    let last = last_epoch(&seen.slots, used);
    vet_append(last, used, shape.m, epoch, payload.len())?;
    put_slot(image, shape, seen.first, used, epoch, payload);
    Ok(used + 1)
}

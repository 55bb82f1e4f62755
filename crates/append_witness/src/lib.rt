// Appending to a witness: a record alone.
#![tactic(auto)]

ghost use Rattle.std.specs.Prelude.{◌<◌, ◌≤◌, ◌≡◌, length};
ghost use Rattle.image.specs.Image.{record_at};
ghost use Rattle.image.specs.Witness.{recorded, record_appended};
ghost use Rattle.image.specs.Answers.{numbers, record_call_numbers};

use append::vet_append;
use image::refusal::Refusal;
use locate::{index_of, record_at};
use record::Shape;
use view::last_epoch;
use view_open::open_witness;
use write_at::put_record;

// Writes the record of slot k of a witness, of a log whose first slot has index `first`.
fn record_slot(image: &mut [u8], shape: Shape, first: u32, k: usize, epoch: u32)
    requires { (shape.m ≤ 64) × (k < shape.m) × (record_at shape shape.m ≤ length image.old) }
    ensures { image.new ≡ recorded shape first image.old k epoch }
{
    put_record(image, record_at(shape, k), epoch, index_of(first, k));
}

// Appends an epoch to the first unused slot of a witness, and answers its number (document 02, Seven).
pub fn append_witness(
    image: &mut [u8],
    shape: Shape,
    replica: usize,
    epoch: u32,
) -> Result<usize, Refusal>
    ensures answer { numbers result ≡ record_call_numbers shape replica image.old epoch }
    ensures image { image.new ≡ record_appended shape replica image.old epoch }
{
    let found = open_witness(image, shape, replica)?;
    let length = found.length;
    let last = last_epoch(&found.slots, length);
    vet_append(last, length, shape.m, epoch, 0)?;
    record_slot(image, shape, found.first, length, epoch);
    Ok(length + 1)
}

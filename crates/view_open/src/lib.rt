// An image viewed as a call names it: refusals 1 to 7.
#![tactic(auto)]

ghost use Rattle.std.specs.Prelude.{◌≡◌, IfOk};
ghost use Rattle.image.specs.Refusal.{refusal_of};
ghost use Rattle.image.specs.Image.{decode_image};
ghost use Rattle.image.specs.View.{read_refusal, kind_refusal, card_refusal, witness_refusal};
ghost use Rattle.image.specs.Seen.{Seen};

use image::refusal::Refusal;
use locate::is_witness;
use record::Shape;
use vet::{vet_call, vet_named};
use view::{ImageView, view_image};

// Views an image as the caller names it: refusals 1 to 7.
pub fn open_image(image: &[u8], shape: Shape, replica: usize) -> Result<ImageView, Refusal>
    ensures refusal { refusal_of result ≡ read_refusal shape replica image.now }
    ensures seen { IfOk result (λ v. Seen shape.m (decode_image shape replica image.now) v.first v.length v.slots) }
{
    vet_call(shape, replica, image.len())?;
    view_image(image, shape, replica)
}

// Views an image as a call for one kind of replica names it: one of the other kind is 3 (document 02, Seven).
fn open_kind(image: &[u8], shape: Shape, replica: usize, other: bool) -> Result<ImageView, Refusal>
    ensures refusal { refusal_of result ≡ kind_refusal other shape replica image.now }
    ensures seen { IfOk result (λ v. Seen shape.m (decode_image shape replica image.now) v.first v.length v.slots) }
{
    vet_named(shape, replica)?;
    if other {
        return Err(Refusal::BufferLength);
    }
    open_image(image, shape, replica)
}

// Views an image as a call for cards names it: a witness has no card.
pub fn open_card(image: &[u8], shape: Shape, replica: usize) -> Result<ImageView, Refusal>
    ensures refusal { refusal_of result ≡ card_refusal shape replica image.now }
    ensures seen { IfOk result (λ v. Seen shape.m (decode_image shape replica image.now) v.first v.length v.slots) }
{
    let other = is_witness(shape, replica);
    open_kind(image, shape, replica, other)
}

// Views an image as a call for witnesses names it: any other replica has a card.
pub fn open_witness(image: &[u8], shape: Shape, replica: usize) -> Result<ImageView, Refusal>
    ensures refusal { refusal_of result ≡ witness_refusal shape replica image.now }
    ensures seen { IfOk result (λ v. Seen shape.m (decode_image shape replica image.now) v.first v.length v.slots) }
{
    let witness = is_witness(shape, replica);
    open_kind(image, shape, replica, !witness)
}

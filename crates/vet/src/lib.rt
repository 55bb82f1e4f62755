// Refusals of what a call about an image names: 1 to 3, and 20 of a fresh one.
#![tactic(auto)]

ghost use Rattle.std.specs.Prelude.{◌≡◌};
ghost use Rattle.image.specs.Refusal.{refusal_of};
ghost use Rattle.image.specs.View.{is_size, is_replica, is_slots, is_edition, named_refusal, call_refusal};
ghost use Rattle.image.specs.Append.{format_refusal};

use image::refusal::Refusal;
use image::{MAX_REPLICAS, MAX_SLOTS, MIN_REPLICAS};
use locate::{NEW_EDITION, OLD_EDITION, image_size, is_first};
use record::Shape;

// Whether an image may have m slots.
#[tactic(auto, unfolding(image::specs::View::is_slots))]
fn is_slots(m: usize) -> bool
    ensures { result ≡ is_slots m }
{
    (1..=MAX_SLOTS).contains(&m)
}

// Whether a cluster may have n replicas.
#[tactic(auto, unfolding(image::specs::View::is_size))]
pub fn is_size(n: usize) -> bool
    ensures { result ≡ is_size n }
{
    (MIN_REPLICAS..=MAX_REPLICAS).contains(&n)
}

// Whether there is such an edition.
#[tactic(auto, unfolding(image::specs::View::is_edition))]
pub fn is_edition(edition: usize) -> bool
    ensures { result ≡ is_edition edition }
{
    (OLD_EDITION..=NEW_EDITION).contains(&edition)
}

// Whether a cluster of n replicas has this one.
#[tactic(auto, unfolding(image::specs::View::is_replica))]
fn is_replica(n: usize, replica: usize) -> bool
    ensures { result ≡ is_replica n replica }
{
    (1..=n).contains(&replica)
}

// Refusals 1 and 2: what the caller names.
pub fn vet_named(shape: Shape, replica: usize) -> Result<(), Refusal>
    ensures { refusal_of result ≡ named_refusal shape replica }
{
    let n = shape.n;
    if !is_slots(shape.m) {
        return Err(Refusal::SlotCount);
    }
    if !is_size(n) || !is_edition(shape.edition) || !is_replica(n, replica) {
        return Err(Refusal::ReplicaCount);
    }
    Ok(())
}

// Refusals 1 to 3: what the caller names, and the size of the buffer.
pub fn vet_call(shape: Shape, replica: usize, size: usize) -> Result<(), Refusal>
    ensures { refusal_of result ≡ call_refusal shape replica size }
{
    vet_named(shape, replica)?;
    if size != image_size(shape, replica) {
        return Err(Refusal::BufferLength);
    }
    Ok(())
}

// The refusals of a fresh image: 1 and 2, then 20 if its log may not begin at that index, and then 3.
pub fn vet_format(fresh: Shape, replica: usize, first: u32, size: usize) -> Result<(), Refusal>
    ensures { refusal_of result ≡ format_refusal fresh replica first size }
{
    vet_named(fresh, replica)?;
    if !is_first(fresh, u64::from(first)) {
        return Err(Refusal::FirstIndex);
    }
    if size != image_size(fresh, replica) {
        return Err(Refusal::BufferLength);
    }
    Ok(())
}

// The calls that say sizes and offsets, for any shape.
#![tactic(auto)]

ghost use Rattle.std.specs.Prelude.{◌-◌, ◌≡◌, ◌&&◌, leb};
ghost use Rattle.record.specs.Layout.{is_witness};
ghost use Rattle.image.specs.Refusal.{refuse, ◌else◌, refusal_of};
ghost use Rattle.image.specs.Image.{image_size, record_at, entry_at};
ghost use Rattle.image.specs.View.{named_refusal};
ghost use Rattle.image.specs.Cluster.{image_at};
ghost use Rattle.call_sizes.specs.Sizes.{slot_refusal, bytes_of, Found, ImageSizeCall, ClusterSizeCall, ImageAtCall, RecordAtCall, EntryAtCall};

use image::refusal::Refusal;
use locate::is_witness;
use record::Shape;
use vet::vet_named;

// A number of bytes and the refusal 0; or 0 and the refusal, for what is out of range.
#[repr(C)]
#[derive(Clone, Copy)]
pub struct Measure {
    pub value: usize,
    pub refusal: u8,
}

// What was found, as C has it.
fn measured(found: Result<usize, Refusal>) -> Measure
    ensures { (result.refusal ≡ refusal_of found) × (result.value ≡ bytes_of found) }
{
    match found {
        Ok(value) => Measure { value, refusal: 0 },
        Err(refusal) => Measure {
            value: 0,
            refusal: refusal as u8,
        },
    }
}

// How many bytes the image of a replica has.
pub fn image_size(shape: Shape, replica: usize) -> Measure
    ensures { ImageSizeCall shape replica result }
{
    measured(find_image_size(shape, replica))
}

// A call's size is found by a function beside it, where `?` passes a refusal on.
fn find_image_size(shape: Shape, sized: usize) -> Result<usize, Refusal>
    ensures { Found (named_refusal shape sized) (image_size shape sized) result }
{
    vet_named(shape, sized)?;
    Ok(locate::image_size(shape, sized))
}

// How many bytes a cluster has: the length by which 3 is judged. Every cluster has a replica 1.
pub fn cluster_size(shape: Shape) -> Measure
    ensures { ClusterSizeCall shape result }
{
    measured(find_cluster_size(shape))
}

fn find_cluster_size(shape: Shape) -> Result<usize, Refusal>
    ensures { Found (named_refusal shape 1) (image_at shape shape.n) result }
{
    vet_named(shape, 1)?;
    Ok(locate::image_at(shape, shape.n))
}

// Where the image of a replica begins in its cluster.
pub fn image_at(shape: Shape, replica: usize) -> Measure
    ensures { ImageAtCall shape replica result }
{
    measured(find_image(shape, replica))
}

fn find_image(shape: Shape, placed: usize) -> Result<usize, Refusal>
    ensures { Found (named_refusal shape placed) (image_at shape (placed - 1)) result }
{
    vet_named(shape, placed)?;
    Ok(locate::image_at(shape, placed - 1))
}

// Whether an image of m slots has this one.
fn is_slot(m: usize, slot: usize) -> bool
    ensures { result ≡ (leb 1 slot && leb slot m) }
{
    (1..=m).contains(&slot)
}

// Refusals 1 and 2 of a slot of a replica: 1 too if the image has no such slot.
fn vet_slot(shape: Shape, replica: usize, slot: usize) -> Result<(), Refusal>
    ensures { refusal_of result ≡ slot_refusal shape replica slot }
{
    if !is_slot(shape.m, slot) {
        return Err(Refusal::SlotCount);
    }
    vet_named(shape, replica)
}

// Where the record of a slot begins in its image.
pub fn record_at(shape: Shape, replica: usize, slot: usize) -> Measure
    ensures { RecordAtCall shape replica slot result }
{
    measured(find_record(shape, replica, slot))
}

fn find_record(shape: Shape, replica: usize, slot: usize) -> Result<usize, Refusal>
    ensures { Found (slot_refusal shape replica slot) (record_at shape (slot - 1)) result }
{
    vet_slot(shape, replica, slot)?;
    Ok(locate::record_at(shape, slot - 1))
}

// Where the entry of a slot begins in its image. A witness has none: 3, as in every call for cards.
pub fn entry_at(shape: Shape, replica: usize, slot: usize) -> Measure
    ensures { EntryAtCall shape replica slot result }
{
    measured(find_entry(shape, replica, slot))
}

fn find_entry(shape: Shape, replica: usize, slot: usize) -> Result<usize, Refusal>
    ensures { Found (slot_refusal shape replica slot else refuse 3 (is_witness shape replica)) (entry_at shape (slot - 1)) result }
{
    vet_slot(shape, replica, slot)?;
    if is_witness(shape, replica) {
        return Err(Refusal::BufferLength);
    }
    Ok(locate::entry_at(shape, slot - 1))
}

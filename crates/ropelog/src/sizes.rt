// Sizes and offsets of a shape: a number of bytes, or 0 and document 01's refusal by number. Nothing is lent.
ghost use Rattle.call_sizes.specs.Sizes.{ImageSizeCall, ClusterSizeCall, ImageAtCall, RecordAtCall, EntryAtCall};

use call_sizes::Measure;
use record::Shape;

// How many bytes the image of a replica has.
#[unsafe(no_mangle)]
pub extern "C" fn rope_image_size(shape: Shape, replica: usize) -> Measure
    ensures { ImageSizeCall shape replica result }
{
    call_sizes::image_size(shape, replica)
}

// How many bytes a cluster has.
#[unsafe(no_mangle)]
pub extern "C" fn rope_cluster_size(shape: Shape) -> Measure
    ensures { ClusterSizeCall shape result }
{
    call_sizes::cluster_size(shape)
}

// Where the image of a replica begins in its cluster.
#[unsafe(no_mangle)]
pub extern "C" fn rope_image_at(shape: Shape, replica: usize) -> Measure
    ensures { ImageAtCall shape replica result }
{
    call_sizes::image_at(shape, replica)
}

// Where the record of a slot begins in its image.
#[unsafe(no_mangle)]
pub extern "C" fn rope_record_at(shape: Shape, replica: usize, slot: usize) -> Measure
    ensures { RecordAtCall shape replica slot result }
{
    call_sizes::record_at(shape, replica, slot)
}

// Where the entry of a slot begins in its image, a card's.
#[unsafe(no_mangle)]
pub extern "C" fn rope_entry_at(shape: Shape, replica: usize, slot: usize) -> Measure
    ensures { EntryAtCall shape replica slot result }
{
    call_sizes::entry_at(shape, replica, slot)
}

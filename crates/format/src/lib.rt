// Fresh images, a card's or a witness's.
#![tactic(auto)]

ghost use Rattle.std.specs.Prelude.{◌+◌, ◌*◌, ◌≤◌, ◌≡◌, cond, [], length};
ghost use Rattle.search.specs.Search.{joined};
ghost use Rattle.slices.specs.Parts.{spliced};
ghost use Rattle.record.specs.Layout.{is_witness, header_size, record_size, entry_size, blank_record, fresh_entry};
ghost use Rattle.image.specs.Image.{image_size};
ghost use Rattle.image.specs.Append.{formatted};
ghost use Rattle.image.specs.Answers.{numbers, format_call_numbers};

use image::refusal::Refusal;
use locate::{entry_at, is_witness, record_at};
use record::Shape;
use vet::vet_format;
use write_at::{put_blank, put_fresh};
use write_header::put_header;

// Writes m blank records behind the header.
fn put_blanks(image: &mut [u8], shape: Shape)
    requires { (shape.m ≤ 64) × (header_size shape + record_size * shape.m ≤ length image.old) }
    ensures { image.new ≡ spliced image.old (header_size shape) (joined shape.m (λ k. blank_record)) }
{
    for k in 0..shape.m {
        put_blank(image, record_at(shape, k));
    }
}

// Writes m fresh entries behind the records.
fn put_freshes(image: &mut [u8], shape: Shape)
    requires { (shape.m ≤ 64) × (header_size shape + record_size * shape.m + entry_size * shape.m ≤ length image.old) }
    ensures { image.new
        ≡ spliced image.old (header_size shape + record_size * shape.m) (joined shape.m (λ k. fresh_entry)) }
{
    for k in 0..shape.m {
        put_fresh(image, entry_at(shape, k));
    }
}

// Writes the fresh entries of a replica. A witness has none (document 02, Seven).
fn put_entries(image: &mut [u8], shape: Shape, replica: usize)
    requires { (shape.m ≤ 64) × (length image.old ≡ image_size shape replica) }
    ensures { image.new ≡ spliced image.old (header_size shape + record_size * shape.m)
        (cond (is_witness shape replica) [] (joined shape.m (λ k. fresh_entry))) }
{
    if !is_witness(shape, replica) {
        put_freshes(image, shape);
    }
}

// Makes a fresh image, a card's or a witness's, in a buffer of its size, of a log whose first slot has index `first`.
pub fn format_image(
    image: &mut [u8],
    shape: Shape,
    replica: usize,
    first: u32,
) -> Result<(), Refusal>
    ensures answer { numbers result ≡ format_call_numbers shape replica first (length image.old) }
    ensures image { image.new ≡ formatted shape replica first image.old }
{
    vet_format(shape, replica, first, image.len())?;
    put_header(image, shape, replica, first);
    put_blanks(image, shape);
    put_entries(image, shape, replica);
    Ok(())
}

// What is seen of an image: each slot, the length of its log, and whether it is refused.
#![tactic(auto)]

ghost use Rattle.std.specs.Prelude.{◌-◌, ◌≤◌, ◌≡◌, true, cond, eqb, length, IfOk};
ghost use Rattle.image.specs.Refusal.{refusal_of};
ghost use Rattle.image.specs.Image.{image_size, decode_under, decode_image};
ghost use Rattle.image.specs.View.{is_slots, image_refusal};
ghost use Rattle.image.specs.Seen.{Seen, slot_in};
ghost use Rattle.image.specs.Scan.{Scanned};

pub mod by_number; // by_number.rt: the last epoch, of epochs by number

use image::MAX_SLOTS;
use image::condition::Slot;
use image::refusal::Refusal;
use locate::header_size;
use record::Shape;
use vet_scan::{log_length, vet_scan};
use view_slot::slot_at;

// What is seen of an image that is not refused: the index of its first slot, the log's length, and its slots; those from m on are unused.
#[derive(Clone, Copy)]
pub struct ImageView {
    pub first: u32,
    pub length: usize,
    pub slots: [Slot; MAX_SLOTS],
}

// Every slot of an image.
fn scan(image: &[u8], shape: Shape, replica: usize, first: u32) -> [Slot; MAX_SLOTS]
    requires { (shape.m ≤ 64) × (length image.now ≡ image_size shape replica) }
    ensures { Scanned shape.m (decode_under shape replica first image.now) result }
{
    let mut slots = [Slot::UNUSED; MAX_SLOTS];
    for k in 0..shape.m {
        slots[k] = slot_at(image, shape, replica, first, k);
    }
    slots
}

// Views an image whose numbers and size were judged.
pub fn view_image(image: &[u8], shape: Shape, replica: usize) -> Result<ImageView, Refusal>
    requires { (is_slots shape.m ≡ true) × (length image.now ≡ image_size shape replica) }
    ensures refusal { refusal_of result ≡ image_refusal shape.m (decode_image shape replica image.now) }
    ensures seen { IfOk result (λ v. Seen shape.m (decode_image shape replica image.now) v.first v.length v.slots) }
{
    let e = header_size(shape);
    let Some(first) = judge_header::judge_header(&image[0..e], shape, replica) else {
        return Err(Refusal::Header);
    };
    let slots = scan(image, shape, replica, first);
    let length = log_length(&slots[..shape.m]);
    vet_scan(&slots[..shape.m], length)?;
    Ok(ImageView {
        first,
        length,
        slots,
    })
}

// The epoch of the last of so many used slots; 0 if there is none.
pub fn last_epoch(slots: &[Slot], used: usize) -> u32
    requires { used ≤ length slots.now }
    ensures { result ≡ cond (eqb used 0) 0 (slot_in slots.now (used - 1)).epoch }
{
    if used == 0 {
        return 0;
    }
    slots[used - 1].epoch
}

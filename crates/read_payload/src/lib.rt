// Whether a slot has a payload, and where it stands.
#![tactic(auto)]

ghost use Rattle.std.specs.Prelude.{ℕ, ◌+◌, ◌-◌, ◌<◌, ◌≤◌, ◌≡◌, true, false, length};
ghost use Rattle.search.specs.Search.{listed};
ghost use Rattle.slices.specs.Parts.{part};
ghost use Rattle.record.specs.Layout.{is_witness, entry_size};
ghost use Rattle.record.specs.Meaning.{entry_payload};
ghost use Rattle.image.specs.Image.{Image, entry_at, decode_under};
ghost use Rattle.image.specs.View.{condition_at};
ghost use Rattle.image.specs.Seen.{slot_of};
ghost use Rattle.image.specs.Scan.{SpanIn};
ghost use Rattle.image.specs.Read.{is_whole, has_payload, payload_of, payload_at};
ghost use Rattle.image.specs.Answers.{numbers, payload_call_numbers};

use image::condition::Slot;
use image::refusal::Refusal;
use locate::{PAYLOAD_AT, entry_at};
use record::Shape;
use view_open::open_card;
use view_slot::entry_state;

// Where a payload stands in the image. A struct of its own: the library's `Range` is not `Copy`.
#[derive(Clone, Copy)]
pub struct Span {
    pub start: usize,
    pub end: usize,
}

// Whether a slot, by its number, is there and whole.
fn holds_payload(slots: &[Slot], slot: usize) -> bool
    ensures { (m : ℕ) (i : Image) → slots.now ≡ listed m (slot_of i) → result ≡ has_payload m i slot }
{
    if slot == 0 || slots.len() < slot {
        return false;
    }
    slots[slot - 1].condition.is_whole()
}

// Whether a slot of a card has a payload.
pub fn has_payload(image: &[u8], shape: Shape, replica: usize, slot: usize) -> Result<bool, Refusal>
    ensures { numbers result ≡ payload_call_numbers shape replica image.now slot }
{
    let view = open_card(image, shape, replica)?;
    Ok(holds_payload(&view.slots[..shape.m], slot))
}

// Where the payload of slot k, counted from 0, stands if it is whole.
fn entry_span(image: &[u8], shape: Shape, first: u32, k: usize) -> Span
    requires { (shape.m ≤ 64) × (k < shape.m) × (entry_at shape shape.m ≤ length image.now) }
    ensures { SpanIn (length image.now) result.start result.end
        × ((c : ℕ) → is_witness shape c ≡ false → is_whole (condition_at (decode_under shape c first image.now) k) ≡ true
        → (part image.now result.start (result.end - result.start) ≡ entry_payload (part image.now (entry_at shape k) entry_size))
        × (result.start ≡ entry_at shape k + 26)) }
{
    let Some(entry) = entry_state(image, shape, first, k) else {
        return Span { start: 0, end: 0 };
    };
    let start = entry_at(shape, k) + PAYLOAD_AT;
    Span {
        start,
        end: start + entry.size,
    }
}

// Where the payload of a slot of a card stands, or an empty span at 0.
pub fn payload_span(image: &[u8], shape: Shape, replica: usize, slot: usize) -> Span
    ensures { SpanIn (length image.now) result.start result.end
        × ((part image.now result.start (result.end - result.start) ≡ payload_of shape replica image.now slot)
        × (result.start ≡ payload_at shape replica image.now slot)) }
{
    let Ok(view) = open_card(image, shape, replica) else {
        return Span { start: 0, end: 0 };
    };
    if !holds_payload(&view.slots[..shape.m], slot) {
        return Span { start: 0, end: 0 };
    }
    entry_span(image, shape, view.first, slot - 1)
}

// The payload of a slot of a card: its part of the image, or the empty part.
pub fn payload_of(image: &[u8], shape: Shape, replica: usize, slot: usize) -> &[u8]
    ensures { result.now ≡ payload_of shape replica image.now slot }
{
    let span = payload_span(image, shape, replica, slot);
    &image[span.start..span.end]
}

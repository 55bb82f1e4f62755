// The same of conditions by number, as a table holds them.
ghost use Rattle.std.specs.Prelude.{ℕ, ◌≤◌, ◌≡◌, false, length};
ghost use Rattle.record.specs.Layout.{is_witness};
ghost use Rattle.image.specs.Image.{entry_at, decode_under};
ghost use Rattle.image.specs.View.{condition_number};
ghost use Rattle.image.specs.declared.condition.Condition.{Condition};
ghost use Rattle.image.specs.Read.{verdicts_of};
ghost use Rattle.read_verdicts.specs.ByNumber.{Marked};

use image::MAX_SLOTS;
use image::condition::Condition;
use record::Shape;

// The condition that has this number.
fn condition_of(number: u8) -> Condition
    ensures { (a : Condition) → number ≡ condition_number a → result ≡ a }
{
    match number {
        0 => Condition::Unused,
        1 => Condition::Whole,
        2 => Condition::RecordLost,
        3 => Condition::Faulty,
        4 => Condition::Lost,
        _ => Condition::RecordOnly,
    }
}

// Gives the caller the verdicts of its slots.
pub fn fill_verdicts(
    image: &[u8],
    shape: Shape,
    first: u32,
    conditions: &[u8; MAX_SLOTS],
    used: usize,
    verdicts: &mut [u8],
)
    requires { (shape.m ≤ 64) × (entry_at shape shape.m ≤ length image.now) × (length verdicts.old ≡ shape.m) }
    ensures { (c : ℕ) → is_witness shape c ≡ false
        → Marked shape.m (decode_under shape c first image.now) used conditions.now
        → verdicts.new ≡ verdicts_of shape.m (decode_under shape c first image.now) }
{
    for k in 0..shape.m {
        let condition = condition_of(conditions[k]);
        verdicts[k] = crate::verdict(image, shape, first, condition, k, used) as u8;
    }
}

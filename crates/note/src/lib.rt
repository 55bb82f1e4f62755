// What a survey says once a store has been made, so that a run reads no image again.
// Where a log begins no store changes. Slot k of replica c stands at c * MAX_SLOTS + k.
#![tactic(auto)]

ghost use Rattle.std.specs.Prelude.{ℕ, suc, ◌<◌, ◌≡◌, cond, ltb};
ghost use Rattle.std.proofs.Math.Option.{some};
ghost use Rattle.record.specs.declared.Shape.{Shape};
ghost use Rattle.record.specs.Layout.{is_witness};
ghost use Rattle.image.specs.View.{condition_number, condition_as};
ghost use Rattle.image.specs.declared.condition.Condition.TheVariants.{Whole};
ghost use Rattle.protocol.specs.Store.{Store, store_entry, store_record, store_blank, store_replica, store_slot};
ghost use Rattle.recovery.specs.NextStore.{store_of};
ghost use Rattle.recovery.specs.Note.{SlotSet, Noted};

use image::{MAX_SLOTS, condition};
use locate::is_witness;
use planner::Survey;
use record::Shape;
use recovery::NextStore;

// A survey in which the log of replica c is so long, and its slot k has this condition's number and this epoch.
fn with_slot(survey: Survey, c: usize, k: usize, length: usize, condition: u8, epoch: u32) -> Survey
    requires { (c < 7) × (k < 64) }
    ensures { SlotSet survey result c k length condition epoch }
{
    let firsts = survey.firsts;
    let mut lengths = survey.lengths;
    let mut conditions = survey.conditions;
    let mut epochs = survey.epochs;
    lengths[c] = length;
    conditions[c * MAX_SLOTS + k] = condition;
    epochs[c * MAX_SLOTS + k] = epoch;
    Survey {
        readable: survey.readable,
        firsts,
        lengths,
        conditions,
        epochs,
    }
}

// A stored entry mends a used slot; behind the log it is not seen.
fn note_entry(survey: Survey, c: usize, k: usize) -> Survey
    requires { (c < 7) × (k < 64) }
    ensures { (Z : Shape) (d : ℕ) → Noted Z (store_entry c k d) survey result }
{
    let length = survey.lengths[c];
    if length <= k {
        return survey;
    }
    let epoch = survey.epochs[c * MAX_SLOTS + k];
    with_slot(survey, c, k, length, condition::WHOLE, epoch)
}

// How long a log is whose slot k got a record.
fn length_with(length: usize, k: usize) -> usize
    requires { k < 64 }
    ensures { result ≡ cond (ltb k length) length (suc k) }
{
    if k < length {
        return length;
    }
    k + 1
}

// What a slot of replica c is once its record is stored: whole, and a witness's has all that a witness has.
fn recorded(shape: Shape, c: usize) -> u8
    requires { c < 7 }
    ensures { result ≡ condition_number (condition_as (is_witness shape (suc c)) Whole) }
{
    if is_witness(shape, c + 1) {
        return condition::RECORD_ONLY;
    }
    condition::WHOLE
}

// A stored record leaves nothing to do at its slot; the log grows by it if the slot was unused.
fn note_record(survey: Survey, shape: Shape, c: usize, k: usize, epoch: u32) -> Survey
    requires { (c < 7) × (k < 64) }
    ensures { Noted shape (store_record c k epoch) survey result }
{
    let grown = length_with(survey.lengths[c], k);
    with_slot(survey, c, k, grown, recorded(shape, c), epoch)
}

// A blanked record leaves its slot unused, and ends the log there.
fn note_blank(survey: Survey, c: usize, k: usize) -> Survey
    requires { (c < 7) × (k < 64) }
    ensures { (Z : Shape) → Noted Z (store_blank c k) survey result }
{
    with_slot(survey, c, k, k, condition::UNUSED, 0)
}

// The survey once the store has been made.
pub fn note_store(survey: Survey, shape: Shape, store: NextStore) -> Survey
    requires { (t : Store) → store_of store ≡ some t → (store_replica t < 7) × (store_slot t < 64) }
    ensures { (t : Store) → store_of store ≡ some t → Noted shape t survey result }
{
    match store {
        NextStore::Nothing => survey,
        NextStore::Entry { c, k, donor: _ } => note_entry(survey, c, k),
        NextStore::Record { c, k, epoch } => note_record(survey, shape, c, k, epoch),
        NextStore::Blank { c, k } => note_blank(survey, c, k),
    }
}

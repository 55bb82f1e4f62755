// A step: the plan is worked out afresh from the images, and the first store still outstanding is made.
#![tactic(auto)]

ghost use Rattle.std.specs.Prelude.{suc, ◌<◌, ◌≤◌, ◌≡◌};
ghost use Rattle.protocol.specs.Call.{step};
ghost use Rattle.protocol.specs.CallResult.{stored, step_result, call_result, call_bytes};
ghost use Rattle.recovery.specs.NextStore.{store_of, StoreFits};
ghost use Rattle.recovery.specs.Answers.{numbers, step_answer_result};
ghost use Rattle.recovery.specs.OutlookIs.{OutlookIs};

use decide::open_cluster;
use pick::first_store;
use record::Shape;
use recovery::{NextStore, Outlook, StepAnswer, kind};
use store::make_store;

// What stands of the recovery of a cluster: refused, waiting, or the first store still outstanding, and where the log begins that it is
// made on: where the leader's does. The leader by its number.
pub fn view_recovery(cluster: &[u8], shape: Shape, leading: usize, present: u32) -> Outlook
    ensures { OutlookIs (numbers shape leading present) cluster.now result }
{
    let opening = open_cluster(cluster, shape, leading, present);
    let refusal = opening.refusal;
    if refusal != 0 {
        return Outlook::Refused(refusal);
    }
    let plan = opening.plan;
    let waiting = plan.waiting;
    let end = plan.end;
    if waiting < end {
        return Outlook::Waiting(waiting + 1);
    }
    let leader = opening.leader;
    let survey = opening.survey;
    let store = first_store(cluster, survey, plan, shape, leader);
    let first = survey.firsts[leader];
    Outlook::Ready { store, first }
}

// The answer that names slot k of replica c, by their numbers.
fn stored_at(c: usize, k: usize, kind: u8) -> StepAnswer
    requires { (c < 18446744073709551615) × (k < 18446744073709551615) }
    ensures { step_answer_result result ≡ stored (suc c) (suc k) kind }
{
    StepAnswer::Stored {
        replica: c + 1,
        slot: k + 1,
        kind,
    }
}

// A store by its replica's and its slot's numbers, and its kind.
fn step_answer(store: NextStore, shape: Shape) -> StepAnswer
    requires { (shape.m ≤ 64) × StoreFits shape 18446744073709551615 store }
    ensures { step_answer_result result ≡ step_result (store_of store) }
{
    match store {
        NextStore::Nothing => StepAnswer::Recovered,
        NextStore::Entry { c, k, donor: _ } => stored_at(c, k, kind::ENTRY),
        NextStore::Record { c, k, epoch: _ } => stored_at(c, k, kind::RECORD),
        NextStore::Blank { c, k } => stored_at(c, k, kind::BLANK),
    }
}

// Makes the first store still outstanding of a cluster. The leader by its number.
pub fn step_cluster(cluster: &mut [u8], shape: Shape, leading: usize, present: u32) -> StepAnswer
    ensures answer { step_answer_result result ≡ call_result (numbers shape leading present) step cluster.old }
    ensures bytes { cluster.new ≡ call_bytes (numbers shape leading present) step cluster.old }
{
    match view_recovery(cluster, shape, leading, present) {
        Outlook::Refused(refusal) => StepAnswer::Refused(refusal),
        Outlook::Waiting(slot) => StepAnswer::Waiting(slot),
        Outlook::Ready { store, first } => {
            make_store(cluster, shape, first, store);
            step_answer(store, shape)
        }
    }
}

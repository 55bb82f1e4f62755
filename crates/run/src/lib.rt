// A run: as many steps as its budget allows, counted.
#![tactic(auto)]

ghost use Rattle.std.specs.Prelude.{ℕ, ◌<◌, ◌≡◌};
ghost use Rattle.std.proofs.Math.Option.{some};
ghost use Rattle.image.specs.Cluster.{decode};
ghost use Rattle.protocol.specs.Store.{Store, store_replica};
ghost use Rattle.protocol.specs.StepBytes.{next_in};
ghost use Rattle.protocol.specs.Call.{run, named};
ghost use Rattle.protocol.specs.CallResult.{run_result, call_result, call_bytes};
ghost use Rattle.recovery.specs.NextStore.{store_of};
ghost use Rattle.recovery.specs.Answers.{numbers, run_answer_result, counted};
ghost use Rattle.recovery.specs.Look.{RestBelow};
ghost use Rattle.recovery.specs.Note.{ReadySurvey, SomeReadySurvey};

use decide::{open_cluster, plan_survey};
use note::note_store;
use pick::{first_store, followers_store, is_outstanding};
use planner::Survey;
use record::Shape;
use recovery::{NextStore, RunAnswer};
use store::make_store;

// The replica that a store is made on.
#[tactic(auto, unfolding(protocol::specs::Store::store_replica))]
fn made_on(store: NextStore) -> usize
    ensures { (t : Store) → store_of store ≡ some t → result ≡ store_replica t }
{
    match store {
        NextStore::Nothing => 0,
        NextStore::Entry { c, .. } | NextStore::Record { c, .. } | NextStore::Blank { c, .. } => c,
    }
}

// The first store still outstanding of a cluster with a ready plan, by its survey, once a store on replica c has been made. If c is a
// follower, the leader and the followers before c have none.
fn next_store(cluster: &[u8], survey: Survey, shape: Shape, leader: usize, c: usize) -> NextStore
    requires { SomeReadySurvey shape leader cluster.now survey × (c < shape.n) }
    ensures { (leading present : ℕ) → ReadySurvey (numbers shape leading present) cluster.now leader survey
        → ((c ≡ leader → ⊥) → RestBelow (named (numbers shape leading present)) (decode shape cluster.now) c)
        → store_of result ≡ next_in (named (numbers shape leading present)) cluster.now }
{
    if c != leader {
        return followers_store(cluster, survey, shape, leader, c);
    }
    let plan = plan_survey(survey, shape.n, leader);
    first_store(cluster, survey, plan, shape, leader)
}

// Spent if a store is outstanding, else recovered.
#[tactic(auto, using(recovery::proofs::Underway::counted_spent, recovery::proofs::Underway::counted_recovered))]
fn run_answer(store: NextStore, made: u64) -> RunAnswer
    ensures { run_answer_result result ≡ counted (run_result made (store_of store)) }
{
    if is_outstanding(store) {
        return RunAnswer::Spent(made);
    }
    RunAnswer::Recovered(made)
}

// Makes at most `budget` stores on a cluster, and counts them. The images are read once; what each store changes is noted. The leader by
// its number; every readable replica's log begins where the leader's does.
pub fn run_cluster(
    cluster: &mut [u8],
    shape: Shape,
    leading: usize,
    present: u32,
    budget: u64,
) -> RunAnswer
    ensures answer { run_answer_result result ≡ counted (call_result (numbers shape leading present) (run budget) cluster.old) }
    ensures bytes { cluster.new ≡ call_bytes (numbers shape leading present) (run budget) cluster.old }
{
    let opening = open_cluster(cluster, shape, leading, present);
    let refusal = opening.refusal;
    if refusal != 0 {
        return RunAnswer::Refused(refusal);
    }
    let plan = opening.plan;
    if plan.waiting < plan.end {
        return RunAnswer::Waiting {
            slot: plan.waiting + 1,
            stores: 0,
        };
    }
    let leader = opening.leader;
    let mut survey = opening.survey;
    let mut store = first_store(cluster, survey, plan, shape, leader);
    for made in 0..budget {
        if !is_outstanding(store) {
            return RunAnswer::Recovered(made);
        }
        let first = survey.firsts[leader];
        make_store(cluster, shape, first, store);
        survey = note_store(survey, shape, store);
        store = next_store(cluster, survey, shape, leader, made_on(store));
    }
    run_answer(store, budget)
}

// A follower's first store still outstanding.
// Slot k of replica c stands at c * MAX_SLOTS + k. Replicas and slots count from 0.
#![tactic(auto)]

ghost use Rattle.std.specs.Prelude.{◌<◌, ◌≡◌, length};
ghost use Rattle.planner.specs.Setting.{Setting};
ghost use Rattle.planner.specs.Plan.{views_in};
ghost use Rattle.protocol.specs.Recovery.{follower_store, unlike, due};
ghost use Rattle.recovery.specs.NextStore.{store_of};
ghost use Rattle.recovery.specs.Look.{InRange, Answering, Sees, cluster_in, missing_store};

use image::{MAX_SLOTS, condition};
use locate::is_witness;
use planner::Survey;
use record::Shape;
use recovery::NextStore;
use seek::{entry_differs, first_differing, first_with};
use survey_sets::contains;

// Whether a follower c has another entry than the leader's at its first missing slot, which is k. A witness has no entries to get.
fn lacks_entry(
    cluster: &[u8],
    survey: Survey,
    shape: Shape,
    leader: usize,
    c: usize,
    k: usize,
) -> bool
    requires { Answering shape leader survey (length cluster.now) c × (k < shape.m) }
    ensures { (S : Setting) → Sees S cluster.now shape leader survey → k ≡ (views_in S cluster.now c).length
        → result ≡ unlike S (cluster_in S cluster.now) c }
{
    if is_witness(shape, c + 1) {
        return false;
    }
    entry_differs(cluster, shape, leader, c, k)
}

// The first missing slot of a follower c, entry before record; nothing if its log is as long as the leader's.
fn missing_store(cluster: &[u8], survey: Survey, shape: Shape, leader: usize, c: usize) -> NextStore
    requires { Answering shape leader survey (length cluster.now) c }
    ensures { (S : Setting) → Sees S cluster.now shape leader survey
        → store_of result ≡ missing_store S (views_in S cluster.now) (unlike S (cluster_in S cluster.now) c) c }
{
    let k = survey.lengths[c];
    if survey.lengths[leader] <= k {
        return NextStore::Nothing;
    }
    if !lacks_entry(cluster, survey, shape, leader, c, k) {
        let epoch = survey.epochs[leader * MAX_SLOTS + k];
        return NextStore::Record { c, k, epoch };
    }
    NextStore::Entry {
        c,
        k,
        donor: leader,
    }
}

// The first store of a follower c: records blanked from its last slot down to the lowest that differs; faulty entries below it; lost
// records below it; then the first missing slot.
fn follower_store(
    cluster: &[u8],
    survey: Survey,
    shape: Shape,
    leader: usize,
    c: usize,
) -> NextStore
    requires { Answering shape leader survey (length cluster.now) c }
    ensures { (S : Setting) → Sees S cluster.now shape leader survey
        → store_of result ≡ follower_store S (views_in S cluster.now) (unlike S (cluster_in S cluster.now) c) c }
{
    let limit = survey.lengths[leader];
    let length = survey.lengths[c];
    let kept = first_differing(&survey.epochs, leader, limit, c, length);
    if kept < length {
        return NextStore::Blank { c, k: length - 1 };
    }
    let faulty = first_with(&survey.conditions, c, condition::FAULTY, kept);
    if faulty < kept {
        return NextStore::Entry {
            c,
            k: faulty,
            donor: leader,
        };
    }
    let lost = first_with(&survey.conditions, c, condition::RECORD_LOST, kept);
    if lost < kept {
        return NextStore::Record {
            c,
            k: lost,
            epoch: survey.epochs[c * MAX_SLOTS + lost],
        };
    }
    missing_store(cluster, survey, shape, leader, c)
}

// What replica c has still to get: nothing if it is the leader or does not answer.
pub fn due_store(cluster: &[u8], survey: Survey, shape: Shape, leader: usize, c: usize) -> NextStore
    requires { InRange shape leader survey (length cluster.now) × (c < shape.n) }
    ensures { (S : Setting) → Sees S cluster.now shape leader survey → store_of result ≡ due S (cluster_in S cluster.now) c }
{
    if c == leader {
        return NextStore::Nothing;
    }
    if !contains(survey.readable, c) {
        return NextStore::Nothing;
    }
    follower_store(cluster, survey, shape, leader, c)
}

// The first store still outstanding, of what is seen of the replicas.
#![tactic(auto)]

ghost use Rattle.std.specs.Prelude.{ℕ, ◌<◌, ◌≤◌, ◌≡◌, false, length};
ghost use Rattle.planner.specs.Setting.{Setting};
ghost use Rattle.planner.specs.Plan.{views_in};
ghost use Rattle.planner.specs.Survey.{PlanIs};
ghost use Rattle.protocol.specs.Recovery.{◌or◌, leader_store, due, followers_store, is_some};
ghost use Rattle.recovery.specs.NextStore.{store_of};
ghost use Rattle.recovery.specs.Look.{InRange, Sees, cluster_in};

use pick_follower::due_store;
use pick_leader::leader_store;
use planner::{Plan, Survey};
use record::Shape;
use recovery::NextStore;

// Whether there is a store.
#[tactic(auto, unfolding(protocol::specs::Recovery::is_some))]
pub fn is_outstanding(store: NextStore) -> bool
    ensures { result ≡ is_some (store_of store) }
{
    let NextStore::Nothing = store else {
        return true;
    };
    false
}

// The first store of the followers, by number, where none below `from` has one.
pub fn followers_store(
    cluster: &[u8],
    survey: Survey,
    shape: Shape,
    leader: usize,
    from: usize,
) -> NextStore
    requires { InRange shape leader survey (length cluster.now) × (from ≤ shape.n) }
    ensures { (S : Setting) → Sees S cluster.now shape leader survey
        → ((j : ℕ) → j < from → is_some (due S (cluster_in S cluster.now) j) ≡ false)
        → store_of result ≡ followers_store S (cluster_in S cluster.now) }
{
    for c in from..shape.n {
        let store = due_store(cluster, survey, shape, leader, c);
        if is_outstanding(store) {
            return store;
        }
    }
    NextStore::Nothing
}

// The first store of a ready plan: the leader's before the followers'.
#[tactic(auto, using(recovery::proofs::FollowerLaws::or_leader, recovery::proofs::FollowerLaws::or_follower))]
pub fn first_store(
    cluster: &[u8],
    survey: Survey,
    plan: Plan,
    shape: Shape,
    leader: usize,
) -> NextStore
    requires { InRange shape leader survey (length cluster.now) × (plan.end ≤ 64) }
    ensures { (S : Setting) → Sees S cluster.now shape leader survey → PlanIs S (views_in S cluster.now) plan
        → store_of result ≡ (leader_store S (views_in S cluster.now) or followers_store S (cluster_in S cluster.now)) }
{
    let store = leader_store(survey, plan, leader);
    if is_outstanding(store) {
        return store;
    }
    followers_store(cluster, survey, shape, leader, 0)
}

// What the replicas answer about a faulty slot of the leader.
// A survey's numbers are lent: slot k of replica c stands at c * MAX_SLOTS + k. Replicas and slots count from 0 here.
#![tactic(auto)]

ghost use Rattle.std.specs.Prelude.{ℕ, ◌<◌, ◌≤◌, ◌≡◌, not, ◌&&◌, eqb};
ghost use Rattle.search.specs.Search.{count};
ghost use Rattle.search.specs.Sets.{has};
ghost use Rattle.planner.specs.Rules.{have, dont_have, may_truncate};
ghost use Rattle.planner.specs.Sets.{set_of};
ghost use Rattle.planner.specs.Survey.{agrees_at, survey_setting, survey_views};

use image::{MAX_SLOTS, condition};
use planner::SURVEY_SLOTS;
use survey_sets::{contains, insert};
use view_slot::is_whole;

// Whether replica c answers: it is readable and not the leader.
fn can_answer(readable: u32, leader: usize, c: usize) -> bool
    requires { c < 7 }
    ensures { result ≡ not (eqb c leader) && has readable c }
{
    c != leader && contains(readable, c)
}

// Whether slot k of replica c is used under the leader's epoch there.
#[tactic(auto, unfolding(planner::specs::Survey::agrees_at))]
fn agrees_at(
    conditions: &[u8; SURVEY_SLOTS],
    epochs: &[u32; SURVEY_SLOTS],
    leader: usize,
    c: usize,
    k: usize,
) -> bool
    requires { (leader < 7) × (c < 7) × (k < 64) }
    ensures { result ≡ agrees_at conditions.now epochs.now leader c k }
{
    conditions[c * MAX_SLOTS + k] != condition::UNUSED
        && epochs[c * MAX_SLOTS + k] == epochs[leader * MAX_SLOTS + k]
}

// Whether replica c answers have.
#[tactic(auto, using(crate::proofs::AnswerLaws::have_is))]
pub fn has_slot(
    readable: u32,
    conditions: &[u8; SURVEY_SLOTS],
    epochs: &[u32; SURVEY_SLOTS],
    leader: usize,
    k: usize,
    c: usize,
) -> bool
    requires { (leader < 7) × (c < 7) × (k < 64) }
    ensures { (n l : ℕ)
        → result ≡ have (survey_setting n leader) (survey_views l readable conditions.now epochs.now) k c }
{
    can_answer(readable, leader, c)
        && is_whole(conditions[c * MAX_SLOTS + k])
        && agrees_at(conditions, epochs, leader, c, k)
}

// Whether replica c answers don't-have.
#[tactic(auto, using(crate::proofs::AnswerLaws::lacks_is))]
fn lacks_slot(
    readable: u32,
    conditions: &[u8; SURVEY_SLOTS],
    epochs: &[u32; SURVEY_SLOTS],
    leader: usize,
    k: usize,
    c: usize,
) -> bool
    requires { (leader < 7) × (c < 7) × (k < 64) }
    ensures { (n l : ℕ)
        → result ≡ dont_have (survey_setting n leader) (survey_views l readable conditions.now epochs.now) k c }
{
    can_answer(readable, leader, c) && !agrees_at(conditions, epochs, leader, c, k)
}

// The set of the replicas that answer don't-have.
fn lacking(
    readable: u32,
    conditions: &[u8; SURVEY_SLOTS],
    epochs: &[u32; SURVEY_SLOTS],
    n: usize,
    leader: usize,
    k: usize,
) -> u32
    requires { (n ≤ 7) × (leader < 7) × (k < 64) }
    ensures { (l : ℕ)
        → result ≡ set_of (dont_have (survey_setting n leader) (survey_views l readable conditions.now epochs.now) k) n }
{
    (0..n)
        .filter(|&c| lacks_slot(readable, conditions, epochs, leader, k, c))
        .fold(0, insert)
}

// Whether the possible holders, all that did not answer don't-have, the leader and those away included, are fewer than a majority of n.
pub fn may_truncate(
    readable: u32,
    conditions: &[u8; SURVEY_SLOTS],
    epochs: &[u32; SURVEY_SLOTS],
    n: usize,
    leader: usize,
    k: usize,
) -> bool
    requires { (n ≤ 7) × (leader < 7) × (k < 64) }
    ensures { (l : ℕ) → result ≡ may_truncate n
        (count (dont_have (survey_setting n leader) (survey_views l readable conditions.now epochs.now) k) n) }
{
    let set = lacking(readable, conditions, epochs, n, leader, k);
    let holders = n - set.count_ones() as usize;
    holders < n / 2 + 1
}

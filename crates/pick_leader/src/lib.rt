// The leader's first store still outstanding.
// Slot k of replica c stands at c * MAX_SLOTS + k. Replicas and slots count from 0.
#![tactic(auto)]

ghost use Rattle.std.specs.Prelude.{ℕ, ◌-◌, ◌<◌, ◌≤◌, ◌≡◌};
ghost use Rattle.image.specs.View.{View};
ghost use Rattle.planner.specs.Setting.{Setting};
ghost use Rattle.planner.specs.Survey.{SurveyIs, PlanIs};
ghost use Rattle.protocol.specs.Recovery.{leader_store};
ghost use Rattle.recovery.specs.NextStore.{store_of};

use image::{MAX_SLOTS, condition};
use planner::{Plan, Survey, action};
use recovery::NextStore;
use seek::{first_fetched, first_with};

// The replica that a plan byte names.
fn donor_in(byte: u8) -> usize
    requires { 10 < byte }
    ensures { result ≡ byte - 11 }
{
    (byte - action::FETCH - 1) as usize
}

// The leader's first store: records blanked from the last slot down to the end; fetched entries, lowest first; lost records, lowest first.
pub fn leader_store(survey: Survey, plan: Plan, leader: usize) -> NextStore
    requires { (leader < 7) × (plan.end ≤ 64) }
    ensures { (S : Setting) (W : ℕ → View) (n : ℕ) → SurveyIs S W n leader survey → PlanIs S W plan → store_of result ≡ leader_store S W }
{
    let end = plan.end;
    let length = survey.lengths[leader];
    if end < length {
        return NextStore::Blank {
            c: leader,
            k: length - 1,
        };
    }
    let fetched = first_fetched(&plan.bytes, end);
    if fetched < end {
        return NextStore::Entry {
            c: leader,
            k: fetched,
            donor: donor_in(plan.bytes[fetched]),
        };
    }
    let lost = first_with(&survey.conditions, leader, condition::RECORD_LOST, end);
    if lost < end {
        return NextStore::Record {
            c: leader,
            k: lost,
            epoch: survey.epochs[leader * MAX_SLOTS + lost],
        };
    }
    NextStore::Nothing
}

// The plan of a survey: what is to be done about each slot of the leader.
#![tactic(auto)]

ghost use Rattle.std.specs.Prelude.{ℕ, ◌<◌, ◌≤◌, ◌≡◌, get_or};
ghost use Rattle.image.specs.View.{View};
ghost use Rattle.planner.specs.Setting.{Setting};
ghost use Rattle.planner.specs.Plan.{cluster_refusal};
ghost use Rattle.planner.specs.Survey.{Opened, SurveyIs, PlanIs};

use decide_slots::{first_waiting, mark_truncated, walk_slots};
use image::MAX_SLOTS;
use planner::{Plan, Survey};
use record::Shape;
use survey_open::view_cluster;

// The plan of whatever views the survey is of. The leader counts from 0.
pub fn plan_survey(s: Survey, n: usize, leader: usize) -> Plan
    requires { (n ≤ 7) × (leader < n) × (get_or s.lengths leader 0 ≤ 64) }
    ensures { (S : Setting) (W : ℕ → View) → SurveyIs S W n leader s → PlanIs S W result }
{
    let length = s.lengths[leader];
    let walk = walk_slots(s.readable, &s.conditions, &s.epochs, n, leader, length);
    let end = walk.end;
    let kept = walk.bytes;
    let bytes = mark_truncated(kept, end, length);
    let waiting = first_waiting(&bytes, end);
    Plan {
        bytes,
        end,
        waiting,
    }
}

// The plan of a refused cluster.
fn no_plan() -> Plan {
    Plan {
        bytes: [0u8; MAX_SLOTS],
        end: 0,
        waiting: 0,
    }
}

// What planning, step, run and report begin with: the cluster's refusal, 0 if it has none; and if it has none the leader, counted from 0,
// the survey and the plan.
#[derive(Drop)]
pub struct Opening {
    pub refusal: u8,
    pub leader: usize,
    pub survey: Survey,
    pub plan: Plan,
}

// Surveys a cluster and plans it, for the leader's number, from 1.
pub fn open_cluster(cluster: &[u8], shape: Shape, leading: usize, present: u32) -> Opening
    ensures refusal { result.refusal ≡ cluster_refusal shape leading present cluster.now }
    ensures opened { result.refusal ≡ 0 → Opened shape leading present cluster.now result.leader result.survey result.plan }
{
    let view = view_cluster(cluster, shape, leading, present);
    let refusal = view.refusal;
    let survey = view.survey;
    if refusal != 0 {
        let plan = no_plan();
        return Opening {
            refusal,
            leader: 0,
            survey,
            plan,
        };
    }
    let leader = leading - 1;
    let plan = plan_survey(survey, shape.n, leader);
    Opening {
        refusal,
        leader,
        survey,
        plan,
    }
}

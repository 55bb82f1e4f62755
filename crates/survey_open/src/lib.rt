// A cluster's refusals, and its survey: what every call about a cluster begins with.
#![tactic(auto)]

ghost use Rattle.std.specs.Prelude.{◌-◌, ◌≡◌};
ghost use Rattle.planner.specs.Setting.{setting_of};
ghost use Rattle.planner.specs.Plan.{views_in, cluster_refusal};
ghost use Rattle.planner.specs.Survey.{SurveyIs};

use image::MAX_REPLICAS;
use planner::{SURVEY_SLOTS, Survey};
use record::Shape;
use survey::survey_cluster;
use survey_refuse::{firsts_refusal, leader_refusal, shape_refusal};

// A cluster's refusal, 0 if it has none; and if it has none, its survey.
#[derive(Drop)]
pub struct ClusterView {
    pub refusal: u8,
    pub survey: Survey,
}

// The survey of no replica.
fn no_survey() -> Survey {
    Survey {
        readable: 0,
        firsts: [0u32; MAX_REPLICAS],
        lengths: [0usize; MAX_REPLICAS],
        conditions: [0u8; SURVEY_SLOTS],
        epochs: [0u32; SURVEY_SLOTS],
    }
}

// Judges what a call names, and surveys the cluster if it can be read.
pub fn view_cluster(cluster: &[u8], shape: Shape, leading: usize, present: u32) -> ClusterView
    ensures refusal { result.refusal ≡ cluster_refusal shape leading present cluster.now }
    ensures survey { result.refusal ≡ 0
        → SurveyIs (setting_of shape leading present) (views_in (setting_of shape leading present) cluster.now) shape.n (leading - 1)
        result.survey }
{
    let refusal = shape_refusal(cluster.len(), shape, present);
    if refusal != 0 {
        let survey = no_survey();
        return ClusterView { refusal, survey };
    }
    let survey = survey_cluster(cluster, shape, present);
    let n = shape.n;
    let unled = leader_refusal(survey.readable, shape.witnesses, n, leading);
    if unled != 0 {
        return ClusterView {
            refusal: unled,
            survey,
        };
    }
    let firsts = survey.firsts;
    let refusal = firsts_refusal(survey.readable, &firsts, n, leading - 1);
    ClusterView { refusal, survey }
}

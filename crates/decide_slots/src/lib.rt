// The plan byte of each slot of the leader.
// A survey's numbers are lent: slot k of replica c stands at c * MAX_SLOTS + k. Replicas and slots count from 0 here.
#![tactic(auto)]

ghost use Rattle.std.specs.Prelude.{◌+◌, ◌<◌, ◌≤◌, ◌≡◌, IfSome, MatchOption, cond, eqb, get_or};
ghost use Rattle.search.specs.Search.{listed, lowest};
ghost use Rattle.planner.specs.Rules.{end};
ghost use Rattle.planner.specs.Plan.{kept_byte};
ghost use Rattle.planner.specs.Survey.{condition_from, survey_setting, survey_views, Walked, marked_byte};

use decide_answers::{has_slot, may_truncate};
use image::{MAX_SLOTS, condition};
use planner::{SURVEY_SLOTS, action};

// The plan byte of a slot that is not faulty.
#[tactic(auto, using(planner::proofs::RuleLaws::kept_low, planner::proofs::RuleLaws::kept_high))]
fn kept_byte(condition: u8) -> u8
    ensures { result ≡ kept_byte (condition_from condition) }
{
    if condition < condition::FAULTY {
        condition
    } else {
        condition::UNUSED
    }
}

// The plan byte of a faulty slot that is not truncated: fetch from the donor, or wait where there is none.
fn faulty_byte(donor: Option<usize>) -> u8
    requires { IfSome donor (λ c. c < 7) }
    ensures { MatchOption donor (result ≡ 3) (λ c. result ≡ 11 + c) }
{
    match donor {
        Some(replica) => action::FETCH + (replica + 1) as u8,
        None => action::WAIT,
    }
}

// Plan bytes of the slots below the end of the log.
#[derive(Drop)]
pub struct Walk {
    pub bytes: [u8; MAX_SLOTS],
    pub end: usize,
}

// Goes over the leader's slots up to the lowest one that is truncated. The others fetch from the lowest-numbered replica
// that has the slot intact, or wait.
pub fn walk_slots<'a>(
    readable: u32,
    conditions: &'a [u8; SURVEY_SLOTS],
    epochs: &'a [u32; SURVEY_SLOTS],
    n: usize,
    leader: usize,
    length: usize,
) -> Walk
    requires { (n ≤ 7) × (leader < n) × (length ≤ 64) }
    ensures end { result.end ≡ end (survey_setting n leader) (survey_views length readable conditions.now epochs.now) }
    ensures walked { Walked (survey_setting n leader) (survey_views length readable conditions.now epochs.now)
        result.bytes result.end }
{
    let mut bytes = [0u8; MAX_SLOTS];
    let mut end = length;
    'slots: for k in 0..length {
        let condition = conditions[leader * MAX_SLOTS + k];
        if condition != condition::FAULTY {
            bytes[k] = kept_byte(condition);
            continue;
        }
        // A loop that yields, as document 01 wants it: a `for` yields nothing, and `find` hides the walk.
        let mut c = 0;
        let donor = loop {
            if n <= c {
                if may_truncate(readable, conditions, epochs, n, leader, k) {
                    end = k;
                    break 'slots;
                }
                break None;
            }
            if has_slot(readable, conditions, epochs, leader, k, c) {
                break Some(c);
            }
            c += 1;
        };
        bytes[k] = faulty_byte(donor);
    }
    Walk { bytes, end }
}

// The byte of a used slot from the lowest truncated one on.
fn truncated_byte(k: usize, end: usize) -> u8
    ensures { result ≡ cond (eqb k end) 4 5 }
{
    if k == end {
        return action::TRUNCATE;
    }
    action::BEHIND
}

// Marks the used slots from the end of the log on.
pub fn mark_truncated(bytes: [u8; MAX_SLOTS], end: usize, length: usize) -> [u8; MAX_SLOTS]
    requires { (end ≤ length) × (length ≤ 64) }
    ensures { result ≡ listed 64 (marked_byte bytes end length) }
{
    let mut marked = bytes;
    for k in end..length {
        marked[k] = truncated_byte(k, end);
    }
    marked
}

// The lowest slot below the end that waits; the end if none does.
pub fn first_waiting(bytes: &[u8; MAX_SLOTS], end: usize) -> usize
    requires { end ≤ 64 }
    ensures { result ≡ lowest (λ k. eqb (get_or bytes.now k 0) 3) end }
{
    let waiting = bytes[..end].iter().position(|&byte| byte == action::WAIT);
    waiting.unwrap_or(end)
}

// The rows of the planner's table.
#![tactic(auto)]

ghost use Rattle.std.specs.Prelude.{ℕ, ◌<◌, ◌≤◌, ◌≡◌, true, length, get_or, take};
ghost use Rattle.search.specs.Sets.{has};
ghost use Rattle.planner.specs.Tabulated.{number_row, no_row, front_rows};
ghost use Rattle.search.specs.Search.{listed};

use image::{MAX_REPLICAS, MAX_SLOTS};
use planner::{PlanAnswer, ReplicaRow, SURVEY_SLOTS};
use survey_sets::contains;
use view::by_number::last_epoch;

// What the planner found: its answer, how many rows there are to fill (none if it refused), and the rows.
#[derive(Clone, Copy)]
pub struct PlanOutcome {
    pub answer: PlanAnswer,
    pub count: usize,
    pub rows: [ReplicaRow; MAX_REPLICAS],
}

// The row of replica c.
fn replica_row<'a>(
    readable: u32,
    lengths: &'a [usize; MAX_REPLICAS],
    epochs: &'a [u32; SURVEY_SLOTS],
    c: usize,
) -> ReplicaRow
    requires { (c < 7) × (has readable c ≡ true → get_or lengths.now c 0 ≤ 64) }
    ensures { result ≡ number_row readable lengths.now epochs.now c }
{
    if !contains(readable, c) {
        return ReplicaRow {
            readable: 0,
            length: 0,
            last_epoch: 0,
        };
    }
    let length = lengths[c];
    let last_epoch = last_epoch(epochs, c * MAX_SLOTS, length);
    ReplicaRow {
        readable: 1,
        length: length as u32,
        last_epoch,
    }
}

// Room for the rows of the largest cluster.
pub fn no_rows() -> [ReplicaRow; MAX_REPLICAS]
    ensures { length result ≡ 7 }
{
    [ReplicaRow {
        readable: 0,
        length: 0,
        last_epoch: 0,
    }; MAX_REPLICAS]
}

// The rows of the first n replicas.
pub fn survey_rows<'a>(
    readable: u32,
    lengths: &'a [usize; MAX_REPLICAS],
    epochs: &'a [u32; SURVEY_SLOTS],
    n: usize,
) -> [ReplicaRow; MAX_REPLICAS]
    requires { (n ≤ 7) × ((c : ℕ) → c < n → has readable c ≡ true → get_or lengths.now c 0 ≤ 64) }
    ensures sized { length result ≡ 7 }
    ensures rows { take n result ≡ listed n (number_row readable lengths.now epochs.now) }
{
    let mut rows = no_rows();
    for c in 0..n {
        rows[c] = replica_row(readable, lengths, epochs, c);
    }
    rows
}

// The row that a plan's outcome has for replica c.
fn outcome_row(found: PlanOutcome, c: usize) -> ReplicaRow
    requires { c < 7 }
    ensures { result ≡ get_or found.rows c no_row }
{
    found.rows[c]
}

// Fills the table from a plan's outcome.
pub fn fill_rows(rows: &mut [ReplicaRow], found: PlanOutcome, count: usize)
    requires { (length found.rows ≡ 7) × (count ≤ 7) × (count ≤ length rows.old) }
    ensures { rows.new ≡ front_rows count found.rows rows.old }
{
    for c in 0..count {
        rows[c] = outcome_row(found, c);
    }
}

// The same of conditions and epochs by number, as a table holds them: any number but 0 is a used slot's, and any but 4 is not lost.
ghost use Rattle.std.specs.Prelude.{ℕ, Bool, ◌<◌, ◌≤◌, ◌≡◌, not};
ghost use Rattle.search.specs.Search.{all};
ghost use Rattle.vet_scan.specs.ByNumber.{length_in, no_gap_in, none_lost_in, rising_in, scan_refusal};

use image::condition::Condition;
use image::{MAX_SLOTS, condition, refusal};

// The log's length: the first slot that is unused.
pub fn log_length(conditions: &[u8; MAX_SLOTS], m: usize) -> usize
    requires { m ≤ 64 }
    ensures { result ≡ length_in m conditions.now }
{
    for k in 0..m {
        if conditions[k] == condition::UNUSED {
            return k;
        }
    }
    m
}

// Whether all numbers below the bound pass.
fn all_pass<F: Fn(usize) -> bool>(bound: usize, passes: F) -> bool
    requires { (k : ℕ) → k < bound → F.pre passes k }
    ensures { (p : ℕ → Bool) → ((k : ℕ) (b : Bool) → k < bound → F.post passes k b → b ≡ p k) →
        result ≡ all p bound }
{
    for k in 0..bound {
        if !passes(k) {
            return false;
        }
    }
    true
}

// Whether no slot behind the log's end is used.
#[tactic(auto, unfolding(crate::specs::ByNumber::no_gap_in))]
fn no_gap(conditions: &[u8; MAX_SLOTS], m: usize, length: usize) -> bool
    requires { (m ≤ 64) × (length ≤ m) }
    ensures { result ≡ no_gap_in m length conditions.now }
{
    all_pass(m, |k| k < length || conditions[k] == condition::UNUSED)
}

// Whether no slot has lost both its record and its entry.
#[tactic(auto, unfolding(crate::specs::ByNumber::none_lost_in))]
fn none_lost(conditions: &[u8; MAX_SLOTS], m: usize) -> bool
    requires { m ≤ 64 }
    ensures { result ≡ none_lost_in m conditions.now }
{
    all_pass(m, |k| conditions[k] != Condition::Lost as u8)
}

// Whether no used slot's epoch is below the one before it.
#[tactic(auto, unfolding(crate::specs::ByNumber::rising_in))]
fn rising(epochs: &[u32; MAX_SLOTS], m: usize, length: usize) -> bool
    requires { (m ≤ 64) × (length ≤ m) }
    ensures { result ≡ rising_in m length epochs.now }
{
    all_pass(m, |k| length <= k + 1 || epochs[k] <= epochs[k + 1])
}

// Refusals 5 to 7, each over the whole image.
pub fn scan_refusal(
    conditions: &[u8; MAX_SLOTS],
    epochs: &[u32; MAX_SLOTS],
    m: usize,
    length: usize,
) -> u8
    requires { (m ≤ 64) × (length ≤ m) }
    ensures { result ≡ scan_refusal m length conditions.now epochs.now }
{
    if !no_gap(conditions, m, length) {
        return refusal::Refusal::UsedAfterBlank as u8;
    }
    if !none_lost(conditions, m) {
        return refusal::Refusal::BothLost as u8;
    }
    if !rising(epochs, m, length) {
        return refusal::Refusal::EpochFalls as u8;
    }
    refusal::NONE
}

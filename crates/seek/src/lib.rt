// Looks for a slot: the lowest of a condition, to be fetched, or that differs.
// And whether an entry differs. Slot k of replica c stands at c * MAX_SLOTS + k. Replicas and slots count from 0.
#![tactic(auto)]

ghost use Rattle.std.specs.Prelude.{ℕ, Bool, ◌+◌, ◌*◌, ◌<◌, ◌≤◌, ◌≡◌, not, ◌&&◌, eqb, ltb, length, get_or};
ghost use Rattle.search.specs.Search.{lowest};
ghost use Rattle.slices.specs.Parts.{part};
ghost use Rattle.slices.specs.Same.{same};
ghost use Rattle.record.specs.Layout.{entry_size};
ghost use Rattle.image.specs.Image.{entry_at};
ghost use Rattle.image.specs.Cluster.{image_at};
ghost use Rattle.recovery.specs.NextStore.{CardFits};

use image::MAX_SLOTS;
use locate::{ENTRY_SIZE, entry_in};
use planner::{SURVEY_SLOTS, action};
use record::Shape;

// The lowest number below the bound that passes; the bound if none does.
fn lowest<F: Fn(usize) -> bool>(bound: usize, passes: F) -> usize
    requires { (k : ℕ) → k < bound → F.pre passes k }
    ensures { (p : ℕ → Bool) → ((k : ℕ) (b : Bool) → k < bound → F.post passes k b → b ≡ p k) →
        result ≡ lowest p bound }
{
    for k in 0..bound {
        if passes(k) {
            return k;
        }
    }
    bound
}

// The lowest slot of replica c below the bound whose condition has this number; the bound if there is none.
pub fn first_with(conditions: &[u8; SURVEY_SLOTS], c: usize, number: u8, bound: usize) -> usize
    requires { (c < 7) × (bound ≤ 64) }
    ensures { result ≡ lowest (λ k. eqb (get_or conditions.now (c * 64 + k) 0) number) bound }
{
    lowest(bound, |k| conditions[c * MAX_SLOTS + k] == number)
}

// The lowest slot below the end whose plan byte says fetch; the end if there is none.
pub fn first_fetched(bytes: &[u8; MAX_SLOTS], end: usize) -> usize
    requires { end ≤ 64 }
    ensures { result ≡ lowest (λ k. ltb 10 (get_or bytes.now k 0)) end }
{
    lowest(end, |k| action::FETCH < bytes[k])
}

// The lowest slot of replica c whose epoch differs from the leader's or which lies beyond the leader's length, `limit`; one past its last if
// there is none.
pub fn first_differing(
    epochs: &[u32; SURVEY_SLOTS],
    leader: usize,
    limit: usize,
    c: usize,
    length: usize,
) -> usize
    requires { (leader < 7) × (c < 7) × (length ≤ 64) }
    ensures { result ≡ lowest (λ k. not (ltb k limit
        && eqb (get_or epochs.now (c * 64 + k) 0) (get_or epochs.now (leader * 64 + k) 0))) length }
{
    lowest(
        length,
        |k| limit <= k || epochs[c * MAX_SLOTS + k] != epochs[leader * MAX_SLOTS + k],
    )
}

// Whether the entry of slot k of replica c differs from the leader's in any byte. Both are cards.
#[tactic(auto, using(recovery::proofs::OffsetLaws::entry_room, slices::proofs::SpliceLaws::part_lent))]
pub fn entry_differs(cluster: &[u8], shape: Shape, leader: usize, c: usize, k: usize) -> bool
    requires m_bound { (shape.m ≤ 64) × (k < shape.m) }
    requires card_fits { CardFits shape (length cluster.now) c × CardFits shape (length cluster.now) leader }
    ensures { result ≡ not (same (part cluster.now (image_at shape c + entry_at shape k) entry_size)
        (part cluster.now (image_at shape leader + entry_at shape k) entry_size)) }
{
    let own = entry_in(shape, c, k);
    let other = entry_in(shape, leader, k);
    !copy::same_bytes(
        &cluster[own..own + ENTRY_SIZE],
        &cluster[other..other + ENTRY_SIZE],
    )
}

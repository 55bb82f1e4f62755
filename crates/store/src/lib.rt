// Stores made on the cluster's bytes.
// Replicas and slots count from 0.
#![tactic(auto)]

ghost use Rattle.std.specs.Prelude.{◌+◌, ◌<◌, ◌≤◌, ◌≡◌, length};
ghost use Rattle.slices.specs.Parts.{part, spliced};
ghost use Rattle.record.specs.Layout.{entry_size, record_bytes, blank_record};
ghost use Rattle.image.specs.Image.{index, record_at, entry_at};
ghost use Rattle.image.specs.Cluster.{image_at};
ghost use Rattle.protocol.specs.Recovery.{after};
ghost use Rattle.protocol.specs.StepBytes.{after_store_bytes};
ghost use Rattle.image.specs.Fits.{ImageFits};
ghost use Rattle.recovery.specs.NextStore.{store_of, CardFits, StoreFits, BeginsAt};

use locate::{ENTRY_SIZE, entry_in, index_of, record_in};
use record::Shape;
use recovery::NextStore;

// The bytes of an entry, by value.
fn load_entry(s: &[u8]) -> [u8; ENTRY_SIZE]
    requires { length s.now ≡ entry_size }
    ensures { result ≡ s.now }
{
    let mut entry = [0u8; ENTRY_SIZE];
    entry.copy_from_slice(s);
    entry
}

// Writes the donor's entry of slot k over that of replica c. Both are cards.
#[tactic(auto, using(recovery::proofs::OffsetLaws::entry_room, slices::proofs::SpliceLaws::spliced_copy))]
fn copy_entry(cluster: &mut [u8], shape: Shape, c: usize, k: usize, donor: usize)
    requires { (shape.m ≤ 64) × (k < shape.m) × CardFits shape (length cluster.old) c × CardFits shape (length cluster.old) donor }
    ensures { cluster.new ≡ spliced cluster.old (image_at shape c + entry_at shape k)
        (part cluster.old (image_at shape donor + entry_at shape k) entry_size) }
{
    let from = entry_in(shape, donor, k);
    // By value: both entries are parts of one buffer.
    let entry = load_entry(&cluster[from..from + ENTRY_SIZE]);
    let to = entry_in(shape, c, k);
    write::write_entry_bytes(&mut cluster[to..to + ENTRY_SIZE], &entry);
}

// Writes the record of slot k of replica c for an epoch, as in a log that begins at index `first`.
#[tactic(auto, using(recovery::proofs::OffsetLaws::record_room))]
fn write_record(cluster: &mut [u8], shape: Shape, first: u32, c: usize, k: usize, epoch: u32)
    requires { (shape.m ≤ 64) × (k < shape.m) × ImageFits shape (length cluster.old) c }
    ensures { cluster.new ≡ spliced cluster.old (image_at shape c + record_at shape k) (record_bytes epoch (index first k)) }
{
    let at = record_in(shape, c, k);
    write_at::put_record(cluster, at, epoch, index_of(first, k));
}

// Blanks the record of slot k of replica c.
#[tactic(auto, using(recovery::proofs::OffsetLaws::record_room))]
fn blank_record(cluster: &mut [u8], shape: Shape, c: usize, k: usize)
    requires { (shape.m ≤ 64) × (k < shape.m) × ImageFits shape (length cluster.old) c }
    ensures { cluster.new ≡ spliced cluster.old (image_at shape c + record_at shape k) blank_record }
{
    let at = record_in(shape, c, k);
    write_at::put_blank(cluster, at);
}

// Makes a store on a replica whose log begins at index `first`.
#[tactic(auto, unfolding(protocol::specs::Recovery::after, protocol::specs::StepBytes::after_store_bytes))]
pub fn make_store(cluster: &mut [u8], shape: Shape, first: u32, store: NextStore)
    requires m_bound { (shape.m ≤ 64) × StoreFits shape (length cluster.old) store }
    requires begins_at { BeginsAt shape cluster.old store first }
    ensures { cluster.new ≡ after (store_of store) cluster.old (λ s. after_store_bytes shape s cluster.old) }
{
    match store {
        NextStore::Nothing => {}
        NextStore::Entry { c, k, donor } => {
            copy_entry(cluster, shape, c, k, donor);
        }
        NextStore::Record { c, k, epoch } => {
            write_record(cluster, shape, first, c, k, epoch);
        }
        NextStore::Blank { c, k } => {
            blank_record(cluster, shape, c, k);
        }
    }
}

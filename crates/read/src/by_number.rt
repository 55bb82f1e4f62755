// The same of epochs by number, as a table holds them.
ghost use Rattle.std.specs.Prelude.{◌≤◌, ◌≡◌, length, get_or};
ghost use Rattle.search.specs.Search.{listed};

use image::MAX_SLOTS;

// Gives the caller the epochs of its slots.
pub fn fill_epochs(seen: &[u32; MAX_SLOTS], epochs: &mut [u32])
    requires { length epochs.old ≤ 64 }
    ensures { epochs.new ≡ listed (length epochs.old) (λ k. get_or seen.now k 0) }
{
    for (k, epoch) in epochs.iter_mut().enumerate() {
        *epoch = seen[k];
    }
}

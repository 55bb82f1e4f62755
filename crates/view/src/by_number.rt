// Of epochs by number, as a table holds them.
ghost use Rattle.std.specs.Prelude.{◌+◌, ◌-◌, ◌≤◌, ◌≡◌, cond, eqb, get_or, length};

// The epoch of the last of so many used slots, whose epochs begin at `from`; 0 if there is none.
pub fn last_epoch(epochs: &[u32], from: usize, used: usize) -> u32
    requires { from + used ≤ length epochs.now }
    ensures { result ≡ cond (eqb used 0) 0 (get_or epochs.now (from + used - 1) 0) }
{
    if used == 0 {
        return 0;
    }
    epochs[from + used - 1]
}

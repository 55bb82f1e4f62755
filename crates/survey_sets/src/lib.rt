// Sets of replicas as words: bit c, worth 2 to the power c, stands for replica c, counted from 0.
#![tactic(auto)]

ghost use Rattle.std.specs.Prelude.{◌<◌, ◌≡◌};
ghost use Rattle.search.specs.Sets.{has};
ghost use Rattle.planner.specs.Sets.{is_within, inserted};

// Whether replica c is in the set.
pub fn contains(set: u32, c: usize) -> bool
    requires { c < 32 }
    ensures { result ≡ has set c }
{
    (set >> c) & 1 == 1
}

// Whether every replica in the set is below n.
pub fn is_within(set: u32, n: usize) -> bool
    requires { n < 32 }
    ensures { result ≡ is_within set n }
{
    if (set >> n) != 0 {
        return false;
    }
    true
}

// The set with replica c in it.
pub fn insert(set: u32, c: usize) -> u32
    requires { c < 32 }
    ensures { result ≡ inserted set c }
{
    set | (1 << c)
}

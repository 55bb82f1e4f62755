// A number reduced modulo 65,535.
ghost use Rattle.std.specs.Prelude.{◌≡◌, ◌+◌, ◌/◌, ◌%◌, ◌<◌};

pub fn reduce(x: u32) -> u32
    requires { x < 4294967295 }
    ensures { result ≡ x % 65535 }
{
    let y = folded(x);
    if y < 65535 { y } else { y - 65535 }
}

// The upper half of x and the lower, added up: 65,536 is one more than 65,535, so this and x leave one remainder.
fn folded(x: u32) -> u32
    ensures { result ≡ x / 65536 + x % 65536 }
{
    let upper = x >> 16;
    upper + (x - (upper << 16))
}

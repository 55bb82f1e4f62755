// Eight sums side by side, one for each place in a row of eight bytes. None waits for another, so a processor may add all at once: they are
// fields of a struct by value, which the compiler keeps in vectors, and not an array.
ghost use Rattle.std.specs.Prelude.{◌≡◌, ◌+◌, ◌*◌, ◌-◌, ◌<◌, ◌≤◌, length};
ghost use Rattle.sum.specs.Rows.{row_of, alone, added, total_of, weighted_of};

use std::ops::Add;

#[derive(Clone, Copy)]
pub struct Eight {
    p0: u32,
    p1: u32,
    p2: u32,
    p3: u32,
    p4: u32,
    p5: u32,
    p6: u32,
    p7: u32,
}

// x in the first place, 0 in the others.
pub fn first_only(x: u32) -> Eight
    ensures { result ≡ alone x }
{
    Eight {
        p0: x,
        p1: 0,
        p2: 0,
        p3: 0,
        p4: 0,
        p5: 0,
        p6: 0,
        p7: 0,
    }
}

// A row of bytes.
pub fn bytes_of(row: &[u8]) -> Eight
    requires { length row.now ≡ 8 }
    ensures { (result ≡ row_of row.now) × (total_of result ≤ 2040) }
{
    Eight {
        p0: row[0] as u32,
        p1: row[1] as u32,
        p2: row[2] as u32,
        p3: row[3] as u32,
        p4: row[4] as u32,
        p5: row[5] as u32,
        p6: row[6] as u32,
        p7: row[7] as u32,
    }
}

// Added place by place.
impl Add for Eight {
    type Output = Eight;

    ghost can_add = { λ x y. total_of x + total_of y < 4294967296 };

    ghost add_gives = { λ x y r. r ≡ added x y };

    fn add(self, other: Eight) -> Eight {
        Eight {
            p0: self.p0 + other.p0,
            p1: self.p1 + other.p1,
            p2: self.p2 + other.p2,
            p3: self.p3 + other.p3,
            p4: self.p4 + other.p4,
            p5: self.p5 + other.p5,
            p6: self.p6 + other.p6,
            p7: self.p7 + other.p7,
        }
    }
}

// All eight.
pub fn total(x: Eight) -> u32
    requires { total_of x < 4294967296 }
    ensures { result ≡ total_of x }
{
    x.p0 + x.p1 + x.p2 + x.p3 + x.p4 + x.p5 + x.p6 + x.p7
}

// Each sum as often as there are places before its own.
fn weighted(x: Eight) -> u32
    requires { total_of x < 536870912 }
    ensures { result ≡ weighted_of x }
{
    let ones = x.p1 + x.p3 + x.p5 + x.p7;
    let twos = x.p2 + x.p3 + x.p6 + x.p7;
    let fours = x.p4 + x.p5 + x.p6 + x.p7;
    let pairs = twos + fours + fours;
    ones + pairs + pairs
}

// The second sum after some rows, from b on: each byte counts once for every byte from its own on, which is eight times for every row from
// its own on (y), less the places before it in its row (x).
pub fn second_sum(x: Eight, y: Eight, b: u32) -> u32
    requires { (weighted_of x ≤ 8 * total_of y) × (b + 8 * total_of y < 4294967296) × (total_of x < 536870912) }
    ensures { result ≡ b + (8 * total_of y - weighted_of x) }
{
    b + ((total(y) << 3) - weighted(x))
}

// Numbers in fixed-width columns: written, compared, and read strictly.
#![tactic(auto)]

ghost use Rattle.std.specs.Prelude.{◌<◌, ◌≤◌, ◌+◌, ◌≡◌, length};
ghost use Rattle.slices.specs.Same.{same};
ghost use Rattle.column.specs.Column.{column, digit_step, value_of};
ghost use Rattle.column.specs.Digit.{high_byte, last_byte};
ghost use Rattle.column.specs.ColumnState.{column_state};
ghost use Rattle.slices.specs.Parts.{spliced};

use column::ColumnState;

// The last byte of a column.
#[tactic(auto, unfolding(column::specs::Digit::last_byte))]
fn last_byte(x: u64) -> u8
    ensures { result ≡ last_byte x }
{
    b'0' + (x % 10) as u8
}

// A byte before the last one, for what is left of the number.
#[tactic(auto, unfolding(column::specs::Digit::last_byte, column::specs::Digit::high_byte))]
fn high_byte(x: u64) -> u8
    ensures { result ≡ high_byte x }
{
    if x == 0 { b' ' } else { last_byte(x) }
}

// Writes x over the whole slice, right-justified.
pub fn write_number(s: &mut [u8], x: u64)
    ensures { s.new ≡ column (length s.old) x }
{
    let Some((last, front)) = s.split_last_mut() else {
        return;
    };
    *last = last_byte(x);
    let mut rest: u64 = x / 10;
    for i in (0..front.len()).rev() {
        front[i] = high_byte(rest);
        rest /= 10;
    }
}

// Writes x into the column of `width` bytes at `at`.
pub fn put_number(s: &mut [u8], at: usize, width: usize, x: u64)
    requires { at + width ≤ length s.old }
    ensures { s.new ≡ spliced s.old at (column width x) }
{
    let e = at + width;
    write_number(&mut s[at..e], x);
}

// Whether the slice holds x as `write_number` writes it.
pub fn holds_number(s: &[u8], x: u64) -> bool
    ensures { result ≡ same s.now (column (length s.now) x) }
{
    let Some((last, front)) = s.split_last() else {
        return true;
    };
    if *last != last_byte(x) {
        return false;
    }
    let mut above: u64 = x / 10;
    for at in (0..front.len()).rev() {
        if front[at] != high_byte(above) {
            return false;
        }
        above /= 10;
    }
    true
}

// One byte more of a number; what is no digit is passed over. By two tests: of one range the compiler makes a conditional move, in which each
// byte waits for the one before it, and a column of spaces takes 1.6 times as long.
#[tactic(auto, unfolding(column::specs::Column::digit_step))]
fn digit_step(v: u64, b: u8) -> u64
    requires { v < 1000000000000000000 }
    ensures { result ≡ digit_step v b }
{
    if b < b'0' || b'9' < b {
        return v;
    }
    v * 10 + u64::from(b - b'0')
}

// The only number that can stand in the slice, if any does.
pub fn number_in(s: &[u8]) -> u64
    requires { length s.now ≤ 19 }
    ensures { result ≡ value_of s.now }
{
    let mut v: u64 = 0;
    for byte in s {
        v = digit_step(v, *byte);
    }
    v
}

// Reads a column: a number only if the writer writes these very bytes for it.
#[tactic(auto, unfolding(column::specs::ColumnState::column_state))]
pub fn read_column(s: &[u8]) -> ColumnState
    requires { length s.now ≤ 19 }
    ensures { result ≡ column_state s.now }
{
    let v = number_in(s);
    if holds_number(s, v) {
        ColumnState::Number(v)
    } else if copy::all_bytes(s, b' ') {
        ColumnState::Blank
    } else {
        ColumnState::Malformed
    }
}

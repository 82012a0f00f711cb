// A number in a column of fixed width, read and written.
#![tactic(auto)]

ghost use Rattle.std.specs.Prelude.{◌≡◌, false, ◌&&◌, ◌+◌, ◌%◌, ◌≤◌, leb, eqb, length, get_or};
ghost use Rattle.columns.specs.Column.{byte_before, column_of, signed_column_of, digit_of, value_from, same_bytes, is_column, number_if, number_in, signed_in, space_byte, widest};
ghost use Rattle.lists.specs.Pages.{Room, Added};

use lists::Page;

// The sign directly before the digits of a value below 0.
pub const MINUS: u8 = b'-';

// What fills a column before its digits.
pub const SPACE: u8 = b' ';

// The widest column that is read.
const WIDEST: usize = 19;

// n's last digit, as a byte.
fn last_digit(n: u64) -> u8
    ensures { result ≡ 48 + n % 10 }
{
    b'0' + (n % 10) as u8
}

// n's last digit, or, where n is 0, what stands before the digits: a minus that is still due, or a space.
fn byte_before(minus: bool, n: u64) -> u8
    ensures { result ≡ byte_before minus n }
{
    match (n, minus) {
        (0, true) => MINUS,
        (0, false) => SPACE,
        _ => last_digit(n),
    }
}

// Fills a column from its right end: by hand, since a number too large for its column fills it with its last digits, which no format of the library does.
// The sign stands beside a magnitude, here and in reading: an i64 does not hold every u64, and what was read is written again, with its sign, to be
// compared. The index stays: as `before.iter_mut().rev()` its proof did not close, since
// of what is written through that iterator nothing is known.
fn write_column(out: &mut [u8], minus: bool, value: u64)
    ensures { out.new ≡ column_of minus (length out.old) value }
{
    let Some((last, before)) = out.split_last_mut() else {
        return;
    };
    *last = last_digit(value);
    let mut n = value / 10;
    let mut due = minus;
    for i in (0..before.len()).rev() {
        before[i] = byte_before(due, n);
        due &= n != 0;
        n /= 10;
    }
}

// Fills a column with a number. This and `write_signed` are one line each, so that a trait with two impls would be longer; so are `read_number` and what
// `read_signed` does beside its sign.
pub fn write_number(out: &mut [u8], value: u64)
    ensures { out.new ≡ column_of false (length out.old) value }
{
    write_column(out, false, value)
}

// Fills a column with a signed value.
pub fn write_signed(out: &mut [u8], value: i64)
    ensures { out.new ≡ signed_column_of (length out.old) value }
{
    write_column(out, value < 0, value.unsigned_abs())
}

// The number that a digit stands for, and 0 for any other byte: what fills a column before its digits counts 0.
fn digit_of(byte: u8) -> u64
    ensures value { result ≡ digit_of byte }
    ensures upper_bound { result ≤ 9 }
{
    char::from(byte).to_digit(10).map_or(0, u64::from)
}

// The number that a column's digits make, whatever else stands there.
fn value_of(column: &[u8]) -> u64
    requires { length column.now ≤ widest }
    ensures { result ≡ value_from 0 column.now }
{
    column
        .iter()
        .fold(0, |value, byte| value * 10 + digit_of(*byte))
}

// Whether a column is narrow enough and has a space in front.
fn begins_well(column: &[u8]) -> bool
    ensures { result ≡ (leb (length column.now) widest && eqb (get_or column.now 0 0) space_byte) }
{
    column.len() <= WIDEST && column.first() == Some(&SPACE)
}

// The number that a column's digits make, if the column is what is written of it, with or without a minus.
fn read_digits(column: &[u8], minus: bool) -> Option<u64>
    ensures { result ≡ number_if (is_column minus column.now) (value_from 0 column.now) }
{
    if !begins_well(column) {
        return None;
    }
    let value = value_of(column);
    // as wide as any column, since there is no heap
    let mut places = [0; WIDEST];
    write_column(&mut places[..column.len()], minus, value);
    let written = &places[..column.len()] == column;
    written.then_some(value)
}

// The number in a column.
#[tactic(auto, unfolding(crate::specs::Column::number_in))]
pub fn read_number(column: &[u8]) -> Option<u64>
    ensures { result ≡ number_in column.now }
{
    read_digits(column, false)
}

// The signed value in a column: a minus never stands before 0.
pub fn read_signed(column: &[u8]) -> Option<i64>
    ensures { result ≡ signed_in column.now }
{
    if column.len() > WIDEST {
        return None;
    }
    let minus = column.contains(&MINUS);
    let value = read_digits(column, minus)? as i64;
    match (minus, value) {
        (true, 0) => None,
        (true, _) => Some(-value),
        (false, _) => Some(value),
    }
}

// Puts a number in a column on a page, after what was put before.
pub fn put_number(page: &mut Page<u8>, width: usize, value: u64)
    requires { Room width page.old }
    ensures { Added (column_of false width value) page.old page.new }
{
    let end = page.end + width;
    write_number(&mut page.space[page.end..end], value);
    page.end = end;
}

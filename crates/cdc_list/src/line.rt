//! A line of a listing, put together in place, so that it takes no memory.

ghost use Rattle.std.specs.Prelude.{◌≡◌, ◌+◌, ◌%◌, ◌==◌, ◌<◌, ◌≤◌, ◌++◌, codes, length, decimal, nat_lt, if◌then◌else◌};
ghost use Rattle.cdc_model.specs.Print.{digits};
ghost use Rattle.cdc_model.specs.Output.{file_name};
ghost use Rattle.cdc_list.specs.Lines as lines;

use arrayvec::ArrayVec;
use cdc_records::Front;

/// The most bytes of a line. The longest, of an out, has 85.
pub const LINE_MAX: usize = 100;

/// The bytes of a line.
pub type Line = ArrayVec<u8, LINE_MAX>;

/// The first number that has more than six digits.
const LONG_NUMBER: u64 = 1_000_000;

/// Puts a piece behind a line's bytes.
fn put(line: &mut Line, piece: &[u8])
    requires { length line.old.items + length piece.now ≤ LINE_MAX }
    ensures items { line.new.items ≡ line.old.items ++ piece.now }
    ensures len { length line.new.items ≡ length line.old.items + length piece.now }
{
    let _ = line.try_extend_from_slice(piece);
}

/// Puts a number in decimal.
fn put_number(line: &mut Line, number: u64)
    requires { length line.old.items + 20 ≤ LINE_MAX }
    ensures items { line.new.items ≡ line.old.items ++ decimal number }
    ensures len { length line.new.items ≤ length line.old.items + 20 }
{
    put(line, itoa::Buffer::new().format(number).as_bytes());
}

/// The last decimal digit of a number.
fn digit(number: u64) -> u8
    ensures { result ≡ 48 + number % 10 }
{
    b'0' + (number % 10) as u8
}

/// The last six decimal digits of a number.
#[tactic(auto, unfolding(cdc_model::specs::Print::digits))]
fn six_digits(number: u64) -> [u8; 6]
    ensures { result ≡ digits 6 number }
{
    let tens = number / 10;
    let hundreds = tens / 10;
    let thousands = hundreds / 10;
    let ten_thousands = thousands / 10;
    let hundred_thousands = ten_thousands / 10;
    [
        digit(hundred_thousands),
        digit(ten_thousands),
        digit(thousands),
        digit(hundreds),
        digit(tens),
        digit(number),
    ]
}

/// Puts the number of a file, in at least six digits.
fn put_file_number(line: &mut Line, number: u64)
    requires { length line.old.items + 20 ≤ LINE_MAX }
    ensures items { line.new.items ≡ line.old.items ++ (if nat_lt number 1000000 then digits 6 number else decimal number) }
    ensures len { length line.new.items ≤ length line.old.items + 20 }
{
    if number < LONG_NUMBER {
        put(line, &six_digits(number));
    } else {
        put_number(line, number);
    }
}

/// Puts the name of a file.
#[tactic(auto, unfolding(cdc_model::specs::Output::file_name))]
fn put_name(line: &mut Line, number: u64)
    requires { length line.old.items + 27 ≤ LINE_MAX }
    ensures items { line.new.items ≡ line.old.items ++ file_name number }
    ensures len { length line.new.items ≤ length line.old.items + 27 }
{
    put(line, b"binlog.");
    put_file_number(line, number);
}

/// Puts the name of an output's last file, or a dash where there is none.
fn put_last_file(line: &mut Line, number: u64)
    requires { length line.old.items + 27 ≤ LINE_MAX }
    ensures items { line.new.items ≡ line.old.items ++ lines.last_file_name number }
    ensures len { length line.new.items ≤ length line.old.items + 27 }
{
    if number == 0 {
        put(line, b"-");
    } else {
        put_name(line, number);
    }
}

/// The line of a published file: the out, the file's name and its length.
pub(crate) fn file_line(out: u32, number: u64, length: u64) -> Line
    ensures { result.items ≡ lines.file_line out number length }
{
    let mut line = Line::new();
    put_number(&mut line, u64::from(out));
    put(&mut line, b" ");
    put_name(&mut line, number);
    put(&mut line, b" ");
    put_number(&mut line, length);
    put(&mut line, b"\n");
    line
}

/// The line of an out: `out`, its number, the name of its last file or `-`, the published length of that file, and how
/// many transactions are published. It takes no memory.
pub fn out_line(out: u32, front: &Front) -> Line
    ensures { result.items ≡ lines.out_line out front.now }
{
    let mut line = Line::new();
    put(&mut line, b"out ");
    put_number(&mut line, u64::from(out));
    put(&mut line, b" ");
    put_last_file(&mut line, front.file);
    put(&mut line, b" ");
    put_number(&mut line, front.length);
    put(&mut line, b" ");
    put_number(&mut line, front.count);
    put(&mut line, b"\n");
    line
}

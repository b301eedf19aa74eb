//! The event that closes an output file.

ghost use Rattle.std.specs.Prelude.{ℕ, ◌≡◌, ◌+◌, ◌<◌, ◌≤◌, ◌^◌, ◌++◌, nat_lt, length, decimal, if◌then◌else◌, IfOk, OnOk};
ghost use Rattle.cdc_model.specs.Print.{digits};
ghost use Rattle.cdc_model.specs.Output.{file_name, rotate_event};

use crate::digits::push_digits;
use crate::event::put_event;
use cdc_base::{Blob, Buffer, Memory};
use cdc_event::{Body, HEADER_LENGTH, kind};
use std::alloc::Global;

/// Where the next file's events begin, behind its magic.
const EVENTS: u64 = 4;

/// What a file's name begins with.
const LOG: &[u8] = b"binlog.";

/// The least digits of a file's number.
const NUMBER_DIGITS: usize = 6;

/// The first number that has more of them.
const LONG_NUMBER: u64 = 1_000_000;

// Appends a file's number.
fn push_number(number: u64, into: &mut Buffer) -> Result<(), Memory>
    ensures { OnOk result (into.new ≡ into.old ++ (if nat_lt number 1000000 then digits 6 number else decimal number)) }
{
    if number < LONG_NUMBER {
        push_digits(NUMBER_DIGITS, number, into)
    } else {
        into.push(itoa::Buffer::new().format(number).as_bytes())
    }
}

// The name of a file.
#[tactic(auto, unfolding(cdc_model::specs::Output::file_name))]
fn name_of(alloc: Global, number: u64) -> Result<Blob, Memory>
    ensures { IfOk result (λ name. name ≡ file_name number) }
{
    let mut name = Buffer::new(alloc);
    name.push(LOG)?;
    push_number(number, &mut name)?;
    name.freeze()
}

// How many bytes a file's number has.
#[tactic(auto, using(crate::proofs::Marks::six_digits))]
fn number_length(number: u64) -> usize
    ensures size { result ≡ length (if nat_lt number 1000000 then digits 6 number else decimal number) }
    ensures short { result ≤ 20 }
{
    if number < LONG_NUMBER {
        NUMBER_DIGITS
    } else {
        itoa::Buffer::new().format(number).len()
    }
}

/// How many bytes ROTATE has, where it names the file of this number, wherever it stands.
pub(crate) fn rotate_length(number: u64) -> usize
    ensures size { (at : ℕ) → result ≡ length (rotate_event at number) }
    ensures short { result ≤ 54 }
{
    HEADER_LENGTH + 8 + LOG.len() + number_length(number)
}

/// Appends the ROTATE event that stands at `at` and names the file of this number.
#[tactic(auto, unfolding(cdc_model::specs::Output::rotate_event))]
pub(crate) fn put_rotate(
    alloc: Global,
    number: u64,
    at: u64,
    into: &mut Buffer,
) -> Result<(), Memory>
    requires { at ≤ 2 ^ 31 }
    ensures { OnOk result (into.new ≡ into.old ++ rotate_event at number) }
{
    let body = Body::Rotate {
        position: EVENTS,
        name: name_of(alloc, number)?,
    };
    put_event(kind::ROTATE, body, 0, at, into)?;
    Ok(())
}

// Text in lent bytes. Each function puts its text from a place on and answers the place after it; what would lie past the end of
// the bytes is left out.
#![tactic(auto)]

ghost use Rattle.std.specs.Prelude.{[], ◌∷◌, ◌≡◌, ◌+◌, ◌≤◌, ◌<◌, length};
ghost use Rattle.base_ids.specs.Definitions.{located};
ghost use Rattle.program_text.specs.Definitions.{decimal, number_line, field as Text·field, line as Text·line, Puts};

use base_ids::Refusal;

// One byte.
pub fn put_byte(out: &mut [u8], at: usize, byte: u8) -> usize
    requires { at ≤ length out.old }
    ensures { Puts out.old at (byte ∷ []) out.new result }
{
    if at < out.len() {
        out[at] = byte;
        return at + 1;
    }
    at
}

// Bytes, one after another: texts of a few bytes, put faster so than by a copy of the slice.
pub fn put_text(out: &mut [u8], at: usize, text: &[u8]) -> usize
    requires { at ≤ length out.old }
    ensures { Puts out.old at text.now out.new result }
{
    let mut next = at;
    for i in 0..text.len() {
        next = put_byte(out, next, text[i]);
    }
    next
}

// A digit as text.
fn digit(n: u32) -> u8
    requires { n < 10 }
    ensures { result ≡ 48 + n }
{
    b'0' + n as u8
}

// The digits are stored from the last one on, then put.
pub fn put_decimal(out: &mut [u8], at: usize, n: u32) -> usize
    requires { at ≤ length out.old }
    ensures { Puts out.old at (decimal n) out.new result }
{
    let mut digits = [0u8; 10];
    let mut first = 9;
    let mut left = n / 10;
    digits[9] = digit(n % 10);
    while left > 0 {
        first -= 1;
        digits[first] = digit(left % 10);
        left /= 10;
    }
    put_text(out, at, &digits[first..10])
}

// A label and a number.
pub fn put_field(out: &mut [u8], at: usize, label: &[u8], n: u32) -> usize
    requires { at ≤ length out.old }
    ensures { Puts out.old at (Text·field label.now n) out.new result }
{
    let next = put_text(out, at, label);
    put_decimal(out, next, n)
}

// A line of a label and a number.
pub fn put_line(out: &mut [u8], at: usize, label: &[u8], n: u32) -> usize
    requires { at ≤ length out.old }
    ensures { Puts out.old at (Text·line label.now n) out.new result }
{
    let next = put_field(out, at, label, n);
    put_byte(out, next, b'\n')
}

// A refusal's number tells the index of a record.
#[tactic(auto, unfolding(base_ids::specs::Definitions::located))]
fn tells_record(number: u32) -> bool
    ensures { result ≡ located number }
{
    matches!(number, 8 | 9 | 16 | 17)
}

// The line of a refusal: its number, then the index of the record that it tells, if it tells one.
pub fn put_number(out: &mut [u8], at: usize, refusal: Refusal) -> usize
    requires { at ≤ length out.old }
    ensures { Puts out.old at (number_line refusal) out.new result }
{
    let number = refusal.code % 256;
    if tells_record(number) {
        let next = put_field(out, at, b"number ", number);
        return put_line(out, next, b" ", refusal.code / 256);
    }
    put_line(out, at, b"number ", number)
}

// Printing into a lent buffer: bytes, numbers, grams and the line of a refusal. Each function prints from a place on,
// needs room there for the longest that it can print, and answers the place after it. There is no heap, and the
// contracts speak of the lent buffer (`Puts`, `PutsShort`), so what is printed is no `Display`.
#![tactic(auto)]

ghost use Rattle.std.specs.Prelude.{◌≡◌, [], ◌∷◌, ◌++◌, ◌+◌, ◌≤◌, ◌<◌, length};
ghost use Rattle.om3.specs.Text.{digit};
ghost use Rattle.om3.specs.Printed.{decimal, signed_decimal, refusal_line};
ghost use Rattle.putting.specs.Putting.{longest_number, longest_grams, longest_refusal, Puts, PutsShort};

use words::Refusal;

// Prints these bytes.
pub fn put_bytes(out: &mut [u8], at: usize, bytes: &[u8]) -> usize
    requires { at + length bytes.now ≤ length out.old }
    ensures { Puts at bytes.now out.old out.new result }
{
    let next = at + bytes.len();
    out[at..next].copy_from_slice(bytes);
    next
}

// Prints one byte.
pub fn put_byte(out: &mut [u8], at: usize, byte: u8) -> usize
    requires { at < length out.old }
    ensures { Puts at (byte ∷ []) out.old out.new result }
{
    out[at] = byte;
    at + 1
}

// The digit that stands for d. Needs d below 10. `from_digit` answers a `char` and may answer none: no plainer.
fn digit_of(d: usize) -> u8
    requires { d < 10 }
    ensures { result ≡ digit d }
{
    b'0' + d as u8
}

// Prints a number in digits.
pub fn put_decimal(out: &mut [u8], at: usize, x: usize) -> usize
    requires { at + length (decimal x) ≤ length out.old }
    ensures { Puts at (decimal x) out.old out.new result }
{
    if x < 10 {
        return put_byte(out, at, digit_of(x));
    }
    let next = put_decimal(out, at, x / 10);
    put_byte(out, next, digit_of(x % 10))
}

// Prints these bytes and then a number.
pub fn put_named(out: &mut [u8], at: usize, name: &[u8], x: usize) -> usize
    requires { at + (length name.now + longest_number) ≤ length out.old }
    ensures { PutsShort (length name.now + longest_number) at (name.now ++ decimal x)
        out.old out.new result }
{
    let next = put_bytes(out, at, name);
    put_decimal(out, next, x)
}

// Prints the line of a refusal at the start of the buffer.
pub fn put_refusal(out: &mut [u8], why: Refusal) -> usize
    requires { longest_refusal ≤ length out.old }
    ensures { PutsShort longest_refusal 0 (refusal_line why) out.old out.new result }
{
    let number = put_named(out, 0, b"refused ", words::number_of(why));
    let place = put_named(out, number, b" at ", words::place_of(why));
    put_byte(out, place, b'\n')
}

// Prints grams.
pub fn put_grams(out: &mut [u8], at: usize, x: i32) -> usize
    requires { at + longest_grams ≤ length out.old }
    ensures { PutsShort longest_grams at (signed_decimal x) out.old out.new result }
{
    let size = signed::size_of(x);
    if x < 0 {
        let next = put_byte(out, at, b'-');
        return put_decimal(out, next, size);
    }
    put_decimal(out, at, size)
}

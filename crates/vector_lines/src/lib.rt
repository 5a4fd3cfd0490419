// Numbers in lines: calls read, answers written. The programs that run the second program's vectors share it.
//
// Whole numbers stand one space or one line feed apart; `7*5` is 7 five times. A lent buffer is its length and then its
// content. An answer is a line with the numbers that the call returned, and then the whole content of each buffer that
// was lent to be written, in which a number that is repeated is written once. Each answer and each buffer begins a
// line, and a line of a buffer has at most eight numbers, a repeated one counted once.
//
// No contract can say what standard input holds or what is written, so what reads and writes is proved to be safe and
// to end. Of a text the contracts say how much of it is taken at least, and of `bytes` what; and of a number what it is
// as each type. Which number stands in a text they do not say.
#![tactic(auto)]

mod input;
mod output;

ghost use Rattle.std.specs.Prelude.{◌≡◌, length};

pub use input::{Number, Numbers, answer_all, read_input};
pub use output::Content;

// How long the input may be.
pub const TEXT: usize = 2_097_152;

// How long a buffer of grams or of counts may be, one of codes, and a record, or flags: more than the largest table and
// the longest log need.
pub const GRAMS: usize = 16_500;

pub const CODES: usize = 8_300;

pub const RECORD: usize = 57_500;

// Room for so many numbers. Lending a part of it asks for its length, which is all that the contract says.
pub fn room<T: Copy + Default, const N: usize>() -> [T; N]
    ensures { N ≡ length result }
{
    [T::default(); N]
}

// The streams of a program that reads a text and prints: standard input is read whole, in pieces of 4,096 bytes at
// most, as they come, until a read brings none; what is printed is written to standard output. No contract can say what
// the system reads and writes; proved is that all of it is safe and ends.
#![tactic(auto)]

use parsing::Text;
use std::fmt::InlineText;
use std::io::{Error, ErrorKind, Read};
use std::thread;
use std::time::Duration;

// How many bytes a read brings at most.
const PIECE: usize = 4096;

// Nobody has so many pieces to read or to write: a loop has to end.
const MOST_TURNS: u64 = u64::MAX;

// How many bytes of a reason are kept: the system's are shorter.
const REASON: usize = 256;

// Waits a moment: a thousand nanoseconds, or how few the system can.
fn pause(rt: &HostRuntime) {
    thread::sleep(rt, Duration::from_nanos(1000));
}

// Whether the read or write that just failed is to be tried again: a signal interrupted it, or its stream was not ready
// and has had a moment.
fn again(rt: &HostRuntime, why: &Error) -> bool {
    match why.kind() {
        ErrorKind::WouldBlock => {
            pause(rt);
            true
        }
        ErrorKind::Interrupted => true,
        _ => false,
    }
}

// The system's words of a reason, without its number, which std puts after them.
fn words_of(reason: &str) -> &str {
    reason
        .split_once(" (os error ")
        .map_or(reason, |(words, _)| words)
}

// Prints these words and the system's reason as a line on standard error.
fn fail(rt: &HostRuntime, cannot: &[u8], why: &Error) {
    let text = InlineText::<REASON>::of(why);
    let reason = words_of(text.as_str());
    let _ = rt.stderr().write_all(cannot);
    let _ = eprintln!(rt; ": {reason}");
}

// Reads all of standard input; `None` if not all of it could be read. A read that is tried again has brought no byte.
// Where the system cannot read, these words and its reason are a line on standard error. The piece is a buffer of fixed
// size with what a read told beside it: there is no heap.
pub fn read_text(
    rt: &HostRuntime,
    cannot: &[u8],
    line: &mut [u8; parsing::KEPT],
    hours: &mut [i32; words::LARGEST_HOURS],
) -> Option<Text> {
    let mut stdin = rt.stdin();
    let mut piece = [0u8; PIECE];
    let mut text = parsing::begin();
    for _ in 0..MOST_TURNS {
        match stdin.read(&mut piece) {
            Ok(0) => return Some(text),
            Ok(n) => text = parsing::read(text, &piece[..n], line, hours),
            Err(why) if again(rt, &why) => {}
            Err(why) => {
                fail(rt, cannot, &why);
                return None;
            }
        }
    }
    None
}

// Writes all of this to standard output, and answers whether it could. Where the system cannot write, these words and
// its reason are a line on standard error.
pub fn write_piece(rt: &HostRuntime, cannot: &[u8], piece: &[u8]) -> bool {
    let mut rest = piece;
    for _ in 0..MOST_TURNS {
        if rest.is_empty() {
            return true;
        }
        match rt.write_some(rest) {
            Ok(n) => rest = &rest[n..],
            Err(why) if again(rt, &why) => {}
            Err(why) => {
                fail(rt, cannot, &why);
                return false;
            }
        }
    }
    rest.is_empty()
}

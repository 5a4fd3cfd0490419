// The numbers and the buffers of calls, read from the input.
ghost use Rattle.std.specs.Prelude.{◌≡◌, ◌-◌, ◌^◌, ◌<◌, ◌≤◌, ◌↔◌, IsTrue, drop, length, pos, take, unsigned_abs};

use crate::TEXT;
use std::io::Read;

// Reads standard input, as far as there is room for it: the bytes that came. A read that fails ends it.
pub fn read_input<'a>(rt: &impl Input, room: &'a mut [u8]) -> &'a [u8]
    ensures { length result.now ≤ length room.old }
{
    let mut reader = rt.reader();
    // Counted by hand: std's `read_to_end` reads into a `Vec`, and the memory here is fixed.
    let mut done = 0;
    while let Ok(got @ 1..) = reader.read(&mut room[done..]) {
        done += got;
    }
    &room[..done]
}

// Reads standard input and hands it on, call by call, as long as there is more of it. Each call takes a byte at least.
pub fn answer_all<F: FnMut(&mut Numbers)>(rt: &impl Input, mut answer: F)
    requires { F.IsAlwaysCallable answer }
{
    let mut room = crate::room::<u8, TEXT>();
    let text = read_input(rt, &mut room);
    let mut input = Numbers::of(text);
    for _ in text {
        if input.is_empty() {
            return;
        }
        answer(&mut input);
    }
}

// A number of the input, with its sign.
#[derive(Clone, Copy)]
pub struct Number(pub i64);

// A number as grams; 0 if its size does not fit, for -2,147,483,648 too. Each type has its own impl, here and below:
// one for every T: TryFrom<u64> would be std's trait for types that are not this crate's.
impl From<Number> for i32 {
    ghost from_gives = { λ x y. let n = unsigned_abs x.0 in (n < 2 ^ 31 → y ≡ x.0) × (2 ^ 31 ≤ n → y ≡ pos 0) };

    fn from(x: Number) -> i32 {
        match i32::try_from(x.0) {
            Ok(grams) if grams != i32::MIN => grams,
            _ => 0,
        }
    }
}

// The size of a number as a byte; 0 if it does not fit.
impl From<Number> for u8 {
    ghost from_gives = { λ x y. let n = unsigned_abs x.0 in (n < 2 ^ 8 → y ≡ n) × (2 ^ 8 ≤ n → y ≡ 0) };

    fn from(x: Number) -> u8 {
        u8::try_from(x.0.unsigned_abs()).unwrap_or(0)
    }
}

// The same as a count of 16 bits.
impl From<Number> for u16 {
    ghost from_gives = { λ x y. let n = unsigned_abs x.0 in (n < 2 ^ 16 → y ≡ n) × (2 ^ 16 ≤ n → y ≡ 0) };

    fn from(x: Number) -> u16 {
        u16::try_from(x.0.unsigned_abs()).unwrap_or(0)
    }
}

// The size of a number.
impl From<Number> for usize {
    ghost from_gives = { λ x y. y ≡ unsigned_abs x.0 };

    fn from(x: Number) -> usize {
        x.0.unsigned_abs() as usize
    }
}

// The size with one more digit. A size of thirteen digits stays as it is.
fn longer(size: u64, digit: u8) -> u64
    requires { size < 2 ^ 44 }
    ensures { result < 2 ^ 44 }
{
    if size < 1_000_000_000_000 {
        10 * size + u64::from(digit)
    } else {
        size
    }
}

// The numbers of a text: what is left of its bytes.
#[derive(Drop)]
pub struct Numbers<'a> {
    pub rest: &'a [u8],
}

impl<'a> Numbers<'a> {
    // The numbers of these bytes, from their start on.
    pub fn of(text: &'a [u8]) -> Numbers<'a>
        ensures { result.rest.now ≡ text.now }
    {
        Numbers { rest: text }
    }

    // Whether no byte is left.
    pub fn is_empty(&self) -> bool
        ensures { IsTrue result ↔ (length self.now.rest.now ≡ 0) }
    {
        self.rest.is_empty()
    }

    // Passes over this byte, if it comes next, and tells whether it does.
    fn skip(&mut self, b: u8) -> bool
        ensures { length self.new.rest.now ≤ length self.old.rest.now }
    {
        match self.rest {
            [first, rest @ ..] if *first == b => {
                self.rest = rest;
                true
            }
            _ => false,
        }
    }

    // The digits that come next, as a number. Without a digit it is 0.
    fn digits(&mut self) -> u64
        ensures size { result < 2 ^ 44 }
        ensures rest { length self.new.rest.now ≤ length self.old.rest.now }
    {
        let mut size = 0;
        while let [first @ b'0'..=b'9', rest @ ..] = self.rest {
            size = longer(size, first - b'0');
            self.rest = rest;
        }
        size
    }

    // The number that comes next, and how many times it stands there. The next one begins a byte after its last digit.
    fn entry(&mut self) -> (Number, u64)
        ensures { length self.new.rest.now ≤ length self.old.rest.now - 1 }
    {
        let negative = self.skip(b'-');
        let size = self.digits() as i64;
        let times = if self.skip(b'*') { self.digits() } else { 1 };
        if let [_, rest @ ..] = self.rest {
            self.rest = rest;
        }
        (Number(if negative { -size } else { size }), times)
    }

    // The number that comes next, of a byte at least where one is left. Of one that is repeated no more is taken.
    pub fn number<T: From<Number>>(&mut self) -> T
        ensures { length self.new.rest.now ≤ length self.old.rest.now - 1 }
    {
        T::from(self.entry().0)
    }

    // So many bytes, or as many as are left.
    pub fn bytes(&mut self, n: usize) -> &'a [u8]
        ensures within { length result.now ≤ n }
        ensures first { result.now ≡ take n self.old.rest.now }
        ensures left { self.new.rest.now ≡ drop n self.old.rest.now }
    {
        let (bytes, rest) = self.rest.split_at(n.min(self.rest.len()));
        self.rest = rest;
        bytes
    }

    // Takes a buffer from the input: its length, cut at the room there is, and its content, into the start of the room.
    // Inlined, so that a room whose content nothing reads is not cleared.
    #[inline(always)]
    pub fn lend<'b, T: From<Number> + Copy>(&mut self, room: &'b mut [T]) -> &'b mut [T]
        ensures within { length result.now ≤ length room.old }
        ensures rest { length self.new.rest.now ≤ length self.old.rest.now - 1 }
    {
        let length = self.number::<usize>().min(room.len());
        let buffer = &mut room[..length];
        let mut number = Number(0);
        let mut left = 0;
        for place in buffer.iter_mut() {
            if left == 0 {
                (number, left) = self.entry();
            }
            *place = T::from(number);
            left = left.saturating_sub(1);
        }
        buffer
    }
}

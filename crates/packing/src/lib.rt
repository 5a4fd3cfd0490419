// Numbers and coefficients as bytes, the highest byte first. [record 1]
#![tactic(auto)]

ghost use Rattle.std.specs.Prelude.{◌≡◌, ◌+◌, ◌*◌, ◌/◌, ◌^◌, ◌≤◌, ◌<◌, length};
ghost use mathlib.Core.List.{flat_map};
ghost use Rattle.om3.specs.Bytes.{bytes_of, number_from, InThree, bits_of, signed_of, three_bytes};
ghost use Rattle.packing.specs.Packing.{EachInThree, coefficient_from, unpacked};

// 2^24, and half of it, from which on 24 bits are a negative number.
const TURN: i32 = 16_777_216;

const HALF_TURN: usize = 8_388_608;

// The number that at most four bytes spell. By hand, for two, three or four bytes: `from_be_bytes` takes eight.
pub fn number_from(bytes: &[u8]) -> usize
    requires { length bytes.now ≤ 4 }
    ensures value { result ≡ number_from bytes.now }
    ensures upper_bound { result < 256 ^ length bytes.now }
{
    let mut x = 0;
    for byte in bytes {
        x = x * 256 + usize::from(*byte);
    }
    x
}

// Spells a number in all of the bytes lent; what they have no room for is left out. By hand for the same reason.
pub fn put_number(x: usize, out: &mut [u8])
    ensures { out.new ≡ bytes_of (length out.old) x }
{
    let mut rest = x;
    for k in (0..out.len()).rev() {
        out[k] = (rest % 256) as u8;
        rest /= 256;
    }
}

// A coefficient that three bytes hold, in 24 bits, two's complement. [record 5]
fn bits_of(z: i32) -> usize
    requires { InThree z }
    ensures { result ≡ bits_of z }
{
    z.rem_euclid(TURN) as usize
}

// The coefficient that 24 bits are. By hand: the library has no number of 24 bits. [record 5]
#[tactic(auto, using(crate::proofs::Threes::signed_kept, crate::proofs::Threes::signed_turned))]
fn signed_of(x: usize) -> i32
    requires { x < 2 ^ 24 }
    ensures { result ≡ signed_of x }
{
    if x < HALF_TURN {
        x as i32
    } else {
        x as i32 - TURN
    }
}

// The coefficient at place p of coefficients that have three bytes each, of which there are more than p.
pub fn coefficient_at(packed: &[u8], p: usize) -> i32
    requires { p < length packed.now / 3 }
    ensures { result ≡ coefficient_from packed.now p }
{
    let at = words::COEFFICIENT_SIZE * p;
    let end = at + words::COEFFICIENT_SIZE;
    signed_of(number_from(&packed[at..end]))
}

// Packs coefficients that three bytes hold into just so many bytes as are lent.
pub fn pack(coefficients: &[i32], out: &mut [u8])
    requires out_len { length out.old ≡ 3 * length coefficients.now }
    requires each_in_three { EachInThree coefficients.now }
    ensures { out.new ≡ flat_map three_bytes coefficients.now }
{
    for (p, z) in coefficients.iter().enumerate() {
        let at = words::COEFFICIENT_SIZE * p;
        let end = at + words::COEFFICIENT_SIZE;
        put_number(bits_of(*z), &mut out[at..end]);
    }
}

// Unpacks just so many coefficients of three bytes each as there is room for.
pub fn unpack(packed: &[u8], out: &mut [i32])
    requires { length out.old ≡ length packed.now / 3 }
    ensures { out.new ≡ unpacked packed.now }
{
    for (p, place) in out.iter_mut().enumerate() {
        *place = coefficient_at(packed, p);
    }
}

// Signed numbers: the size of one, and laws for the proofs of the crates above.
#![tactic(auto)]

ghost use Rattle.std.specs.Prelude.{◌≡◌, nat_abs};

// How far a number is from 0.
pub fn size_of(x: i32) -> usize
    ensures { result ≡ nat_abs x }
{
    x.unsigned_abs() as usize
}

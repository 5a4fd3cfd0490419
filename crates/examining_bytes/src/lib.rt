// Examining a table where it stands in the bytes of a record: no buffer is lent for it, and nothing is written.
#![tactic(auto)]

ghost use Rattle.std.specs.Prelude.{◌≡◌};
ghost use Rattle.om3.specs.Table.{lent};
ghost use Rattle.om3.specs.Refusals.{examine_table};
ghost use Rattle.examining.specs.Examining.{check_of};
ghost use Rattle.packing.specs.Packing.{unpacked};
ghost use Rattle.examining_bytes.specs.Packed.{PackedTable};

use examining::Coefficients;
use words::NodeId;

// The bytes of coefficients, three for each, of which one is read at a time.
#[derive(Clone, Copy)]
struct Packed<'a>(&'a [u8]);

impl<'a> Coefficients for Packed<'a> {
    ghost listed = { λ s. unpacked s.0.now };

    #[tactic(auto, using(crate::proofs::Unpacked::read))]
    fn at(self, p: usize) -> i32 {
        packing::coefficient_at(self.0, p)
    }
}

// Examines a whole table of n hours and P places in its packed coefficients and its codes. Coefficients and codes are
// two parts of the bytes that C lends. [forms 8]
#[tactic(auto, using(crate::proofs::Unpacked::read))]
pub fn examine(n: usize, places: usize, packed: &[u8], codes: &[u8]) -> Result<(), NodeId>
    requires { PackedTable n places packed.now codes.now }
    ensures { check_of result ≡ examine_table n (lent (unpacked packed.now) codes.now) }
{
    examining::examine_in(n, places, Packed(packed), codes)
}

// One level of the table.
#![tactic(auto)]

ghost use Rattle.std.specs.Prelude.{◌≡◌, length};
ghost use Rattle.om3.specs.Level.{has_level, level_stretch, places_of};

use words::Stretch;

// Whether there is a level j of details in a table of n hours, lent as so many coefficients. Hours, level and size come
// one by one, as C hands them over.
#[tactic(auto, using(crate::proofs::Stretches::no_pairs, crate::proofs::Stretches::too_deep))]
fn has_level(n: usize, j: usize, size: usize) -> bool
    ensures { result ≡ has_level n j size }
{
    if sizes::bad_hours(n) || words::LARGEST_LEVEL <= j {
        return false;
    }
    let p = sizes::places(n);
    p <= size && 4 * sizes::power(j) <= p
}

// The places of level j's details in a table of n hours lent as so many coefficients, or no place. C takes the answer
// as it is, so no place is a stretch of length 0 and not `None`. It is a place in the tree that C lends as one array.
// [level 2]
#[tactic(auto, using(crate::proofs::Stretches::deep), unfolding(om3::specs::Level::level_stretch))]
pub fn stretch(n: usize, j: usize, size: usize) -> Stretch
    ensures { result ≡ level_stretch n j size }
{
    if !has_level(n, j, size) {
        return Stretch {
            start: 0,
            length: 0,
        };
    }
    let doubled = 2 * sizes::power(j);
    Stretch {
        start: doubled,
        length: doubled,
    }
}

// That stretch of the lent coefficients itself. This call returns no number: where there is no such level, and for the
// causes of 1 and 3, its part has length 0. [forms 5]
#[tactic(auto, using(crate::proofs::Stretches::part_fits))]
pub fn level(n: usize, j: usize, coefficients: &[i32]) -> &[i32]
    ensures { result.now
        ≡ places_of (level_stretch n j (length coefficients.now)) coefficients.now }
{
    let part = stretch(n, j, coefficients.len());
    &coefficients[part.start..part.start + part.length]
}

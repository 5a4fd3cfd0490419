// How large a table and its record are, and whether a table is lent whole: checks 1 and 3.
#![tactic(auto)]

ghost use Rattle.std.specs.Prelude.{◌≡◌, ◌||◌, ◌+◌, ◌/◌, ◌^◌, ◌≤◌};
ghost use Rattle.words.specs.Constants.{largest_level, largest_hours};
ghost use Rattle.om3.specs.Series.{bad_hours, P};
ghost use Rattle.om3.specs.Refusals.{short};
ghost use Rattle.om3.specs.Record.{length_for};
ghost use Rattle.sizes.specs.Lent.{LentTableOf};
ghost use Rattle.sizes.specs.Needed.{places_needed, bytes_needed};

use words::Refusal;

mod table;

pub use table::{LentTable, Table};

// Check 1: whether n is 0 or over 16,384.
pub fn bad_hours(n: usize) -> bool
    ensures { result ≡ bad_hours n }
{
    n == 0 || words::LARGEST_HOURS < n
}

// P for n hours, which are not too many: the smallest power of two that is at least n and at least 2.
pub fn places(n: usize) -> usize
    requires { n ≤ largest_hours }
    ensures { result ≡ P n }
{
    n.max(2).next_power_of_two()
}

// Check 3 of a table of p places: whether fewer coefficients or fewer codes are lent than it needs.
pub fn table_short(p: usize, coefficients: usize, codes: usize) -> bool
    ensures { result ≡ (short coefficients p || short codes (p / 2)) }
{
    coefficients < p || codes < p / 2
}

// Checks 1 and 3 of a table: the table as it is lent, or why it is refused.
pub fn lent_table<'a>(
    n: usize,
    coefficients: &'a [i32],
    codes: &'a [u8],
) -> Result<LentTable<'a>, Refusal>
    ensures { LentTableOf n coefficients.entry codes.entry result }
{
    if bad_hours(n) {
        return Err(Refusal::BadHours);
    }
    let p = places(n);
    if table_short(p, coefficients.len(), codes.len()) {
        return Err(Refusal::ShortBuffer);
    }
    let table = Table {
        n,
        coefficients,
        codes,
    };
    Ok(LentTable { table, p })
}

// 2^j, for a level j. `pow` takes its exponent as a `u32`: no plainer.
pub fn power(j: usize) -> usize
    requires { j ≤ largest_level }
    ensures { result ≡ 2 ^ j }
{
    1 << j
}

// How many bytes the record of a table of p places has.
pub fn record_size(p: usize) -> usize
    requires { p ≤ largest_hours }
    ensures { result ≡ 4 + length_for p }
{
    words::HEADER_SIZE + words::COEFFICIENT_SIZE * p + p / 2
}

// P for n hours, or 0 if n is no number of hours: so many coefficients, and half as many codes, are to be lent. C takes
// this number and the next as they are, so 0 stands for none.
pub fn places_needed(n: usize) -> usize
    ensures { result ≡ places_needed n }
{
    if bad_hours(n) { 0 } else { places(n) }
}

// How many bytes the record of n hours has, or 0 if n is no number of hours.
pub fn bytes_needed(n: usize) -> usize
    ensures { result ≡ bytes_needed n }
{
    if bad_hours(n) {
        0
    } else {
        record_size(places(n))
    }
}

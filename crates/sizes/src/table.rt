// A table as it is lent.
ghost use Rattle.std.specs.Prelude.{◌≡◌, ◌≤◌, ◌/◌, false, length};
ghost use Rattle.om3.specs.Series.{bad_hours, P};

// A table of n hours in two buffers, of whatever length these are.
#[derive(Clone, Copy)]
pub struct Table<'a> {
    pub n: usize,
    pub coefficients: &'a [i32],
    pub codes: &'a [u8],
}

// A table that is lent whole: n is a number of hours, p is P, and at least P coefficients and P/2 codes are there.
#[derive(Clone, Copy)]
pub struct LentTable<'a> {
    pub table: Table<'a>,
    pub p: usize,
    ghost hours: { bad_hours table.n ≡ false },
    ghost places: { p ≡ P table.n },
    ghost coefficients_lent: { P table.n ≤ length table.coefficients.now },
    ghost codes_lent: { P table.n / 2 ≤ length table.codes.now },
}

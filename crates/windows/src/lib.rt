// A window drawn in columns: checks 5 and 6, and where a column begins and ends.
#![tactic(auto)]

ghost use Rattle.std.specs.Prelude.{◌≡◌, not, ◌&&◌, ◌||◌, ◌≤◌, leb, ltb, eqb, Ok, Err};
ghost use Rattle.words.specs.Constants.{largest_hours, most_columns};
ghost use Rattle.om3.specs.Checks.{answer_by};
ghost use Rattle.om3.specs.Columns.{edge as edge_of, column as column_of, edges as edges_of};
ghost use Rattle.windows.specs.Windows.{Edged, window_check};

use words::{Column, Refusal, Timestamp};

// Check 5: whether [a, b) is no window of n hours. This and the next are written out as document 01 says them; a range
// that contains would be no plainer.
fn bad_window(n: usize, a: Timestamp, b: Timestamp) -> bool
    ensures { result ≡ not (ltb a.0 b.0 && leb b.0 n) }
{
    !(a.0 < b.0 && b.0 <= n)
}

// Check 6: whether w is no number of columns, or k none of them.
fn bad_column(w: usize, k: usize) -> bool
    ensures { result ≡ (eqb w 0 || ltb most_columns w || leb w k) }
{
    w == 0 || words::MOST_COLUMNS < w || w <= k
}

// The first hour of column k of [a, b) in w columns, or, for k = w, the window's end. Needs a window of at most 16,384
// hours and k at most w, w from 1 to 4,096.
#[tactic(auto, using(crate::proofs::Windows::rounded_up))]
fn edge(a: Timestamp, b: Timestamp, w: usize, k: usize) -> Timestamp
    requires { Edged a.0 b.0 w k }
    ensures { result ≡ edge_of a.0 b.0 w k }
{
    let passed = k * (b.0 - a.0);
    Timestamp(a.0 + passed.div_ceil(w))
}

// Checks 5 and 6, and then the column's hours. Needs n to be at most 16,384. The window comes as two hours, and not as
// the `Window` of a text, whose numbers are no hours yet.
#[tactic(auto, unfolding(om3::specs::Checks::in_order))]
pub fn column_of(
    n: usize,
    a: Timestamp,
    b: Timestamp,
    w: usize,
    k: usize,
) -> Result<Column, Refusal>
    requires { n ≤ largest_hours }
    ensures { result ≡ answer_by Err (window_check n a.0 b.0 w k)
        (Ok (column_of a.0 b.0 w k)) }
{
    if bad_window(n, a, b) {
        return Err(Refusal::BadWindow);
    }
    if bad_column(w, k) {
        return Err(Refusal::BadColumn);
    }
    Ok(Column {
        from: edge(a, b, w, k),
        upto: edge(a, b, w, k + 1),
    })
}

// The hours of column k of the window [a, b) in w columns. Refusals in the order 1, 5, 6. Its numbers come one by one,
// as C hands them over.
#[tactic(auto, unfolding(om3::specs::Columns::edges, om3::specs::Checks::in_order))]
pub fn edges(n: usize, a: Timestamp, b: Timestamp, w: usize, k: usize) -> Result<Column, Refusal>
    ensures { result ≡ edges_of n a.0 b.0 w k }
{
    if sizes::bad_hours(n) {
        return Err(Refusal::BadHours);
    }
    column_of(n, a, b, w, k)
}

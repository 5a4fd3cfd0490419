// A day: its hours, and what changed from the latest reading before it to its last.
#![tactic(auto)]

ghost use Rattle.std.specs.Prelude.{◌≡◌, ◌*◌, ◌≤◌, ◌<◌};
ghost use Rattle.words.specs.Constants.{largest_hours, day_hours};
ghost use Rattle.om3.specs.Table.{lent};
ghost use Rattle.om3.specs.Days.{day as day_of, before, change_of, day_change};
ghost use Rattle.columns.specs.Drawing.{SmallAnswer};
ghost use Rattle.std.specs.Prelude.{Some, Ok};
ghost use Rattle.days.specs.Given.{MayBeGiven, ChangeGiven};

use sizes::LentTable;
use words::{Column, Refusal, Summary, Timestamp};

// The hours of day d of n hours. Needs it to have some, and n to be at most 16,384.
fn hours_of(n: usize, d: usize) -> Column
    requires { (day_hours * d < n) × (n ≤ largest_hours) }
    ensures { result ≡ day_of n d }
{
    let from = words::DAY_HOURS * d;
    let next = from + words::DAY_HOURS;
    Column {
        from: Timestamp(from),
        upto: Timestamp(next.min(n)),
    }
}

// The hours before day d, of whatever day. Needs d to be below 16,384.
fn hours_before(d: usize) -> Column
    requires { d < largest_hours }
    ensures { result ≡ before d }
{
    Column {
        from: Timestamp(0),
        upto: Timestamp(words::DAY_HOURS * d),
    }
}

// The change of a day with a reading, by the answer of the hours before it and by its own: its last reading minus the
// latest before it; with none earlier, minus its own first. Needs these to be from -1,000,000 to 2,000,003 grams.
// [forms 10]
fn change_of(earlier: Option<Summary>, own: Summary) -> i32
    requires { SmallAnswer earlier × SmallAnswer (Some own) }
    ensures { Ok (Some result) ≡ change_of earlier (Some own) }
{
    match earlier {
        None => own.last.grams - own.first.grams,
        Some(before) => own.last.grams - before.last.grams,
    }
}

// The change of day d, whose own answer is given, from a table. Where it has a reading, the hours before it are
// finished as one column; before day 0 that is a column without an hour, for which the table is not examined. Needs d
// to be below 16,384, and a small answer.
fn change_given(whole: &LentTable, d: usize, own: Option<Summary>) -> Result<Option<i32>, Refusal>
    requires { MayBeGiven d own }
    ensures { ChangeGiven whole.now.table.n whole.now.table.coefficients.now
        whole.now.table.codes.now d own result }
{
    let Some(own) = own else {
        return Ok(None);
    };
    let earlier = columns::finished_over(whole, hours_before(d))?;
    Ok(Some(change_of(earlier.answer, own)))
}

// Day d's last reading minus the latest reading before that day; with none earlier, minus its own first. Refusals in
// the order 1, 3, 5, 4, and in 4 the day's hours and then those before it. The table comes in its parts, as C hands it
// over.
pub fn day_change(
    n: usize,
    coefficients: &[i32],
    codes: &[u8],
    d: usize,
) -> Result<Option<i32>, Refusal>
    ensures { result ≡ day_change n (lent coefficients.now codes.now) d }
{
    let whole = sizes::lent_table(n, coefficients, codes)?;
    // The days that have an hour are those below n / 24, rounded up.
    if n.div_ceil(words::DAY_HOURS) <= d {
        return Err(Refusal::BadWindow);
    }
    let own = columns::finished_over(&whole, hours_of(n, d))?;
    change_given(&whole, d, own.answer)
}

// What the tablet draws: a column of a window, stopped at a depth or finished.
#![tactic(auto)]

ghost use Rattle.std.specs.Prelude.{◌≡◌, ◌+◌, ◌*◌, ◌≤◌};
ghost use Rattle.words.specs.Constants.{largest_hours};
ghost use Rattle.om3.specs.Series.{levels, P};
ghost use Rattle.om3.specs.Table.{lent};
ghost use Rattle.om3.specs.Stopped.{stopped as stopped_of};
ghost use Rattle.om3.specs.Finished.{finished as finished_of};
ghost use Rattle.stepping.specs.Nodes.{LentTo, Below};
ghost use Rattle.columns.specs.Drawing.{inner_range, StoppedOver, StoppedAt, FoundFrom, FinishedOver};

use sight::Inner;
use sizes::{LentTable, Table};
use walking::Towards;
use words::{Column, Finished, Range, Refusal, Stopped, Summary, Timestamp};

// The count of a column without an hour.
const NO_NODES: usize = 0;

// The range of the inner nodes that were met.
fn inner_range(inner: Option<Inner>) -> Option<Range>
    ensures { result ≡ inner_range inner }
{
    inner.and_then(|nodes| nodes.range)
}

// The count of so many opened nodes: node 1, and both halves of each. Needs at most 16,384 of them. [forms 7]
fn count_of(opened: usize) -> usize
    requires { opened ≤ largest_hours }
    ensures { result ≡ 1 + 2 * opened }
{
    1 + 2 * opened
}

// A column of a table of p = P places, stopped at nodes that cover `stop` hours, at least 1. Needs the root values, and
// the details and codes that nodes of more hours have. A column without an hour is answered with the table not
// examined. Stopped and finished columns stay two families of functions: they differ in what they refuse and tell, and
// one of both would be no plainer.
pub fn stopped_over(table: &Table, p: usize, x: Column, stop: usize) -> Result<Stopped, Refusal>
    requires p_value { p ≡ P table.now.n }
    requires lent_to { LentTo stop (levels table.now.n) table.now.coefficients.now table.now.codes.now }
    requires le_stop { 1 ≤ stop }
    ensures { StoppedOver table.now.n table.now.coefficients.now table.now.codes.now x stop result }
{
    if x.upto.0 <= x.from.0 {
        return Ok(Stopped {
            outer: None,
            inner: None,
            count: NO_NODES,
        });
    }
    let visit = visiting::visit_table(table, p, x, stop);
    let seen = visit.map_err(Refusal::Unsound)?;
    Ok(Stopped {
        outer: seen.outer,
        inner: inner_range(seen.inner),
        count: count_of(seen.opened),
    })
}

// Check 7, and then the column stopped at depth d: its nodes of level d cover P / 2^d hours.
fn stopped_at(whole: &LentTable, x: Column, d: usize) -> Result<Stopped, Refusal>
    ensures { StoppedAt whole.now.table.n whole.now.table.coefficients.now
        whole.now.table.codes.now x d result }
{
    if words::LARGEST_LEVEL < d {
        return Err(Refusal::TooDeep);
    }
    let nodes = sizes::power(d);
    if whole.p < nodes {
        return Err(Refusal::TooDeep);
    }
    stopped_over(&whole.table, whole.p, x, whole.p / nodes)
}

// Column k of [a, b) in w columns, stopped at depth d. Refusals in the order 1, 3, 5, 6, 7, 4. The table, the window
// and its columns come in their parts here and below, as C hands them over.
pub fn stopped(
    n: usize,
    coefficients: &[i32],
    codes: &[u8],
    a: Timestamp,
    b: Timestamp,
    w: usize,
    k: usize,
    d: usize,
) -> Result<Stopped, Refusal>
    ensures { result ≡ stopped_of n (lent coefficients.now codes.now) a.0 b.0 w k d }
{
    let whole = sizes::lent_table(n, coefficients, codes)?;
    let x = windows::column_of(n, a, b, w, k)?;
    stopped_at(&whole, x, d)
}

// A column with these inner nodes: the walks to its first and to its last reading. Needs the first and the last of them
// to be nodes of a table that is lent down to the pairs, and a count of at most 32,768. [forms 7]
fn found(table: &Table, inner: Inner, count: usize) -> Result<Finished, Refusal>
    requires below { Below 1 table.now.coefficients.now table.now.codes.now inner.first
        × Below 1 table.now.coefficients.now table.now.codes.now inner.last }
    requires count_bound { count ≤ 2 * largest_hours }
    ensures { FoundFrom table.now.n table.now.coefficients.now table.now.codes.now
        inner.range inner.first inner.last count result }
{
    let walk = walking::walk(table, Towards::First, inner.first);
    let earliest = walk.map_err(Refusal::Unsound)?;
    let walk = walking::walk(table, Towards::Last, inner.last);
    let latest = walk.map_err(Refusal::Unsound)?;
    let summary = Summary {
        first: earliest.reading,
        last: latest.reading,
        low: words::low_of(inner.range),
        high: words::high_of(inner.range),
    };
    Ok(Finished {
        answer: Some(summary),
        count: count + earliest.levels + latest.levels,
    })
}

// A finished column of a table. A column without an hour is answered with the table not examined.
pub fn finished_over(whole: &LentTable, x: Column) -> Result<Finished, Refusal>
    ensures { FinishedOver whole.now.table.n whole.now.table.coefficients.now
        whole.now.table.codes.now x result }
{
    if x.upto.0 <= x.from.0 {
        return Ok(Finished {
            answer: None,
            count: NO_NODES,
        });
    }
    let visit = visiting::visit_table(&whole.table, whole.p, x, 1);
    let seen = visit.map_err(Refusal::Unsound)?;
    let count = count_of(seen.opened);
    let Some(inner) = seen.inner else {
        return Ok(Finished {
            answer: None,
            count,
        });
    };
    found(&whole.table, inner, count)
}

// Column k of [a, b) in w columns, finished. Refusals in the order 1, 3, 5, 6, 4.
pub fn finished(
    n: usize,
    coefficients: &[i32],
    codes: &[u8],
    a: Timestamp,
    b: Timestamp,
    w: usize,
    k: usize,
) -> Result<Finished, Refusal>
    ensures { result ≡ finished_of n (lent coefficients.now codes.now) a.0 b.0 w k }
{
    let whole = sizes::lent_table(n, coefficients, codes)?;
    let x = windows::column_of(n, a, b, w, k)?;
    finished_over(&whole, x)
}

// One node of a table as it is reached by going down, and one examined step from it to its halves: what the visit of
// the nodes that a column opens and the walk to a first or last reading have in common.
#![tactic(auto)]

pub mod by_parts;
pub mod nodes;

ghost use Rattle.stepping.specs.Stepping.{Steps, SteppedFrom};

use node::Halves;
use sizes::Table;
use words::{NodeId, Range, Timestamp};

// A node as it is reached by going down: its number, its first hour, how many hours it covers, and its range.
#[derive(Clone, Copy)]
pub struct Reached {
    pub id: NodeId,
    pub from: Timestamp,
    pub hours: usize,
    pub range: Option<Range>,
}

// One step down from a node of two hours or more, whose range is one of readings and whose details or code are there:
// the ranges of its halves, or `None` where it is unsound. The node's parts are handed over one by one, and of its
// hours only whether it is a pair, for speed alone, and the compiler is told to put the step into the loops that take
// it: as a call it answered through memory, and columns took up to 1.4 times as many instructions. It reads two arrays,
// as C lends the table.
#[inline(always)]
pub fn step(
    table: &Table,
    i: NodeId,
    h: Timestamp,
    pair: bool,
    range: Option<Range>,
) -> Option<Halves>
    requires { Steps table.now.coefficients.now table.now.codes.now i h pair range }
    ensures { SteppedFrom table.now.n table.now.coefficients.now table.now.codes.now i h pair range result }
{
    if pair {
        return examining::pair_halves(table.n, table.codes, h, range);
    }
    // The details of a node stand at the numbers of its halves.
    let left_number = 2 * i.0;
    let right_number = left_number + 1;
    node::half_ranges(
        range,
        table.coefficients[left_number],
        table.coefficients[right_number],
    )
}

// A node that a visit or a walk has come to: its halves, and how it lies to a column.
ghost use Rattle.std.specs.Prelude.{◌≡◌, ◌+◌, ◌*◌, ◌^◌, ◌<◌};
ghost use Rattle.stepping.specs.Nodes.{is_pair_of, left_reached, right_reached, touches_of, inside_of, opened_of};

use crate::{Reached, by_parts};
use words::{Column, NodeId, Range, Timestamp};

// Whether a node of two hours or more is a pair.
pub fn is_pair(hours: usize) -> bool
    ensures { result ≡ is_pair_of hours }
{
    hours < 4
}

// The halves of a node, whose numbers and hours are not too large. Two functions, as document 01 has two halves: one
// that is told which would be no plainer.
pub fn left_half(at: Reached, range: Option<Range>) -> Reached
    requires { 2 * at.id.0 < 2 ^ 63 }
    ensures { result ≡ left_reached at range }
{
    Reached {
        id: NodeId(2 * at.id.0),
        from: at.from,
        hours: at.hours / 2,
        range: by_parts::copy_range(range),
    }
}

pub fn right_half(at: Reached, range: Option<Range>) -> Reached
    requires id_bound { 2 * at.id.0 < 2 ^ 63 }
    requires hours_bound { at.from.0 + at.hours < 2 ^ 64 }
    ensures { result ≡ right_reached at range }
{
    let half = at.hours / 2;
    Reached {
        id: NodeId(2 * at.id.0 + 1),
        from: Timestamp(at.from.0 + half),
        hours: half,
        range: by_parts::copy_range(range),
    }
}

// Whether a node has a reading and shares an hour with the column, which has an hour. Here and below, the node ends at
// an hour that is not too large.
pub fn touches(x: Column, at: Reached) -> bool
    requires { at.from.0 + at.hours < 2 ^ 64 }
    ensures { result ≡ touches_of x at }
{
    at.range.is_some() && x.from.0 < at.from.0 + at.hours && at.from.0 < x.upto.0
}

// Whether it lies wholly inside the column.
pub fn is_inside(x: Column, at: Reached) -> bool
    requires { at.from.0 + at.hours < 2 ^ 64 }
    ensures { result ≡ inside_of x at }
{
    x.from.0 <= at.from.0 && at.from.0 + at.hours <= x.upto.0
}

// Whether it is opened, at the depth whose nodes cover `stop` hours. The column and `stop` stay apart: only this test
// needs both, and a struct for it would be no plainer.
pub fn is_opened(x: Column, stop: usize, at: Reached) -> bool
    requires { at.from.0 + at.hours < 2 ^ 64 }
    ensures { result ≡ opened_of x stop at }
{
    touches(x, at) && !is_inside(x, at) && stop < at.hours
}

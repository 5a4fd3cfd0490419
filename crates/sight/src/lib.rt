// What a visit has seen of a node, and of two halves together.
#![tactic(auto)]

ghost use Rattle.std.specs.Prelude.{◌≡◌, ◌+◌, ◌^◌, ◌<◌};
ghost use Rattle.sight.specs.Seen.{unopened_of, both_inner, both_seen};

use stepping::{Reached, by_parts, nodes};
use words::{Column, Range};

// The nodes of an inner range: the least low and the greatest high of all, and the first and the last of them. Without
// any node there is no `Inner`.
#[derive(Clone, Copy)]
pub struct Inner {
    pub range: Option<Range>,
    pub first: Reached,
    pub last: Reached,
}

// What a visit has seen: the outer range, the nodes of the inner one, and how many nodes are opened by now.
#[derive(Clone, Copy)]
pub struct Seen {
    pub outer: Option<Range>,
    pub inner: Option<Inner>,
    pub opened: usize,
}

// What is seen at a node that is not opened, with so many opened before it.
pub fn unopened(x: Column, opened: usize, at: Reached) -> Seen
    requires { at.from.0 + at.hours < 2 ^ 64 }
    ensures { result ≡ unopened_of x opened at }
{
    let range = at.range;
    if !nodes::touches(x, at) {
        return Seen {
            outer: None,
            inner: None,
            opened,
        };
    }
    if !nodes::is_inside(x, at) {
        return Seen {
            outer: range,
            inner: None,
            opened,
        };
    }
    let alone = Inner {
        range,
        first: at,
        last: at,
    };
    Seen {
        outer: range,
        inner: Some(alone),
        opened,
    }
}

// A copy of inner nodes, made from their parts: for speed alone, as stepping copies a node.
fn copy_inner(inner: Option<Inner>) -> Option<Inner>
    ensures { result ≡ inner }
{
    match inner {
        None => None,
        Some(Inner { range, first, last }) => Some(Inner {
            range: by_parts::copy_range(range),
            first: by_parts::copy_node(first),
            last: by_parts::copy_node(last),
        }),
    }
}

// The inner nodes of the left half and then those of the right half.
fn both_inner(a: Option<Inner>, b: Option<Inner>) -> Option<Inner>
    ensures { result ≡ both_inner a b }
{
    match (a, b) {
        (None, _) => copy_inner(b),
        (_, None) => copy_inner(a),
        (Some(left), Some(right)) => Some(Inner {
            range: node::both(
                by_parts::copy_range(left.range),
                by_parts::copy_range(right.range),
            ),
            first: by_parts::copy_node(left.first),
            last: by_parts::copy_node(right.last),
        }),
    }
}

// What was seen in the left half and, after it, in the right half.
pub fn both_seen(a: Seen, b: Seen) -> Seen
    ensures { result ≡ both_seen a b }
{
    Seen {
        outer: node::both(by_parts::copy_range(a.outer), by_parts::copy_range(b.outer)),
        inner: both_inner(a.inner, b.inner),
        opened: b.opened,
    }
}

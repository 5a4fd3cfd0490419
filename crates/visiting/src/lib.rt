// Visiting the nodes of a table that a column opens: its outer and its inner range, or the first opened node that is
// unsound.
#![tactic(auto)]

ghost use Rattle.std.specs.Prelude.{◌≡◌, ◌+◌, ◌≤◌};
ghost use Rattle.words.specs.Constants.{largest_hours};
ghost use Rattle.om3.specs.Series.{levels, P};
ghost use Rattle.stepping.specs.Nodes.{LentTo, Below};
ghost use Rattle.visiting.specs.Visiting.{VisitedFrom, TableVisited};
ghost use Rattle.visiting.specs.Narrowing.{NarrowedFrom};

use node::Halves;
use sight::Seen;
use sizes::Table;
use stepping::{Reached, by_parts, nodes};
use words::{Column, NodeId, Timestamp};

// Where a visit has come to that had one half to go on with at each node, all sound: to one that is not opened, or to
// two halves that both are to be visited.
#[derive(Clone, Copy)]
pub enum Narrowed {
    Ended {
        at: Reached,
        opened: usize,
    },
    Split {
        first: Reached,
        second: Reached,
        opened: usize,
    },
}

// Visits from a node on, opening each that is to be opened, as long as no more than one of the two halves touches the
// column. The error of this and of every visit is the first unsound node that it opened. The node is one of a table
// whose details and codes are there for nodes of more than `stop` hours, and its range is one of readings; not too many
// nodes were opened before, and `stop` is 1 or more.
fn narrow(
    table: &Table,
    x: Column,
    stop: usize,
    before: usize,
    start: Reached,
) -> Result<Narrowed, NodeId>
    requires below { Below stop table.now.coefficients.now table.now.codes.now start }
    requires hours_bound { before + start.hours ≤ largest_hours }
    requires le_stop { 1 ≤ stop }
    ensures { NarrowedFrom table.now.n table.now.coefficients.now table.now.codes.now
        x stop before start result }
{
    let mut at = by_parts::copy_node(start);
    let mut opened = before;
    // No index is counted here: a node is made of the one before it, and only its look says whether it is opened.
    while nodes::is_opened(x, stop, at) {
        let pair = nodes::is_pair(at.hours);
        let halves = stepping::step(table, at.id, at.from, pair, at.range);
        let Halves { left, right } = halves.ok_or(at.id)?;
        let first = nodes::left_half(at, left);
        let second = nodes::right_half(at, right);
        opened += 1;
        if nodes::touches(x, second) {
            if nodes::touches(x, first) {
                return Ok(Narrowed::Split {
                    first,
                    second,
                    opened,
                });
            }
            at = second;
        } else {
            // Where the left half does not touch the column either, the visit ends there with nothing added.
            at = first;
        }
    }
    Ok(Narrowed::Ended { at, opened })
}

// Visits a node and all nodes below it that the column opens or comes to: it calls itself on both halves wherever both
// touch the column. What it needs of the node and of the rest is what narrowing needs. [forms 8]
fn visit(
    table: &Table,
    x: Column,
    stop: usize,
    before: usize,
    start: Reached,
) -> Result<Seen, NodeId>
    requires below { Below stop table.now.coefficients.now table.now.codes.now start }
    requires hours_bound { before + start.hours ≤ largest_hours }
    requires le_stop { 1 ≤ stop }
    ensures { VisitedFrom table.now.n table.now.coefficients.now table.now.codes.now
        x stop before start result }
{
    match narrow(table, x, stop, before, start)? {
        Narrowed::Ended { at, opened } => Ok(sight::unopened(x, opened, at)),
        Narrowed::Split {
            first,
            second,
            opened,
        } => {
            let a = visit(table, x, stop, opened, first)?;
            let b = visit(table, x, stop, a.opened, second)?;
            Ok(sight::both_seen(a, b))
        }
    }
}

// Visits a table of p = P places for a column that has an hour, from the root values down to nodes that cover `stop`
// hours, 1 or more. Of the details and codes only those are needed that nodes of more hours have.
pub fn visit_table(table: &Table, p: usize, x: Column, stop: usize) -> Result<Seen, NodeId>
    requires p_value { p ≡ P table.now.n }
    requires lent_to { LentTo stop (levels table.now.n) table.now.coefficients.now table.now.codes.now }
    requires le_stop { 1 ≤ stop }
    ensures { TableVisited table.now.n table.now.coefficients.now table.now.codes.now
        x stop result }
{
    let root = node::root_range(table.coefficients[0], table.coefficients[1]);
    let range = root.ok_or(NodeId(0))?;
    let top = Reached {
        id: NodeId(1),
        from: Timestamp(0),
        hours: p,
        range,
    };
    visit(table, x, stop, 0, top)
}

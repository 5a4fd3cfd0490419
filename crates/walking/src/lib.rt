// Walking down a table from a node to its first or to its last reading.
#![tactic(auto)]

ghost use Rattle.std.specs.Prelude.{◌≡◌};
ghost use Rattle.stepping.specs.Nodes.{Below};
ghost use Rattle.walking.specs.Walking.{takes_left, WalkedFrom};

use node::Halves;
use sizes::Table;
use stepping::{Reached, nodes};
use words::{NodeId, Range, Reading};

// Which reading of a node a walk goes to. Two cases and no closure: the contract speaks of them (`WalkedFrom`).
#[derive(Clone, Copy)]
pub enum Towards {
    First,
    Last,
}

// A walk has come to its reading, so many levels down.
#[derive(Clone, Copy)]
pub struct Walked {
    pub reading: Reading,
    pub levels: usize,
}

// Whether a walk takes the left of two halves with these ranges: to the first it takes the left if it has a reading,
// else the right; to the last the other way round.
fn takes_left(towards: Towards, left: Option<Range>, right: Option<Range>) -> bool
    ensures { result ≡ takes_left towards left right }
{
    match towards {
        Towards::First => left.is_some(),
        Towards::Last => right.is_none(),
    }
}

// Walks from a node to its first or to its last reading, examining each node on the way down to the pair; the error is
// the first unsound one. The node is one of a table whose details and codes are all there, and its range is one of
// readings.
pub fn walk(table: &Table, towards: Towards, start: Reached) -> Result<Walked, NodeId>
    requires { Below 1 table.now.coefficients.now table.now.codes.now start }
    ensures { WalkedFrom table.now.n table.now.coefficients.now table.now.codes.now towards 0 start result }
{
    let mut at = start;
    let mut levels = 0;
    // No index is counted here: a node is made of the one before it, down to a single hour.
    while 1 < at.hours {
        let pair = nodes::is_pair(at.hours);
        let halves = stepping::step(table, at.id, at.from, pair, at.range);
        let Halves { left, right } = halves.ok_or(at.id)?;
        levels += 1;
        if takes_left(towards, left, right) {
            at = nodes::left_half(at, left);
        } else {
            at = nodes::right_half(at, right);
        }
    }
    let reading = Reading {
        hour: at.from,
        grams: words::low_of(at.range),
    };
    Ok(Walked { reading, levels })
}

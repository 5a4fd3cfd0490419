// A copy of a value, made from its parts. For speed alone: what is copied whole, as `Copy` copies it, goes through
// memory and takes the bytes between its parts along, and columns took an eighth to a sixth longer.
ghost use Rattle.std.specs.Prelude.{◌≡◌};

use crate::Reached;
use words::Range;

pub fn copy_range(range: Option<Range>) -> Option<Range>
    ensures { result ≡ range }
{
    match range {
        None => None,
        Some(Range { low, high }) => Some(Range { low, high }),
    }
}

pub fn copy_node(at: Reached) -> Reached
    ensures { result ≡ at }
{
    Reached {
        id: at.id,
        from: at.from,
        hours: at.hours,
        range: copy_range(at.range),
    }
}

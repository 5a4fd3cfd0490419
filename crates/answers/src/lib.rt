// Answers of finished columns: two of them joined.
#![tactic(auto)]

ghost use Rattle.std.specs.Prelude.{◌≡◌};
ghost use Rattle.om3.specs.Joined.{joined};

use words::Summary;

// The answer of the hours on the left and the answer of those on the right, together. Two ranges are joined by the same
// match in `node`, and inner nodes in `sight`; one over a closure would be no plainer. [forms 10]
pub fn join(left: Option<Summary>, right: Option<Summary>) -> Option<Summary>
    ensures { result ≡ joined left right }
{
    match (left, right) {
        (None, _) => right,
        (_, None) => left,
        (Some(a), Some(b)) => Some(Summary {
            first: a.first,
            last: b.last,
            low: a.low.min(b.low),
            high: a.high.max(b.high),
        }),
    }
}

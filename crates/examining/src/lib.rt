// Examining a table: whether each of its nodes is sound, or which is the first that is not.
#![tactic(auto)]

ghost use Rattle.std.specs.Prelude.{◌≡◌, ◌+◌, ◌*◌, ◌/◌, ◌^◌, ◌≤◌, ◌<◌, List, ℤ, pos, length, get_or};
ghost use Rattle.words.specs.Bounds.{Readings};
ghost use Rattle.om3.specs.Series.{P};
ghost use Rattle.om3.specs.Table.{lent};
ghost use Rattle.om3.specs.Sound.{gap_from};
ghost use Rattle.om3.specs.Refusals.{examine_table};
ghost use Rattle.examining.specs.Examining.{check_of, pair_at, halves_in, Examined, PairExamined, PairsExamined};
ghost use Rattle.examining.specs.Examining.{FourExamined};

use node::Halves;
use sizes::{LentTable, Table};
use words::{NodeId, Range, Timestamp};

// Coefficients that are read at their places, wherever they stand: as numbers in a lent buffer, or in a record's bytes.
pub trait Coefficients: Copy {
    // The coefficients, in order.
    ghost listed: { Self → List ℤ };

    fn at(self, p: usize) -> i32
        requires { p < length (listed self) }
        ensures { result ≡ get_or (listed self) p (pos 0) };
}

impl<'a> Coefficients for &'a [i32] {
    ghost listed = { λ s. s.now };

    fn at(self, p: usize) -> i32 {
        self[p]
    }
}

// Whether hour h may come out as r: from hour n on it has to be a gap.
fn allowed(n: usize, h: Timestamp, r: Option<Range>) -> bool
    ensures { result ≡ gap_from n h r }
{
    h.0 < n || r.is_none()
}

// The two hours of the pair at hours h and h + 1, which has this range and whose code is there; `None` where it is
// unsound.
pub fn pair_halves(n: usize, codes: &[u8], h: Timestamp, range: Option<Range>) -> Option<Halves>
    requires { h.0 + 2 ≤ 2 * length codes.now }
    ensures { result ≡ pair_at n codes.now h.0 range }
{
    let halves = node::pair_hours(range, codes[h.0 / 2])?;
    let next = Timestamp(h.0 + 1);
    if allowed(n, h, halves.left) {
        if allowed(n, next, halves.right) {
            return Some(halves);
        }
    }
    None
}

// Examines pair i of hours h and h + 1, which has this range and whose code is there. The error of this and of what
// follows is the first unsound node.
pub fn examine_pair(
    n: usize,
    codes: &[u8],
    i: NodeId,
    h: Timestamp,
    range: Option<Range>,
) -> Result<(), NodeId>
    requires { h.0 + 2 ≤ 2 * length codes.now }
    ensures { PairExamined n codes.now i h.0 range result }
{
    pair_halves(n, codes, h, range).ok_or(i)?;
    Ok(())
}

// Examines pair i of hours h and h + 1 and, if that is sound, the pair after it. Both have their codes, and i is a
// number that has one after it.
pub fn examine_pairs(
    n: usize,
    codes: &[u8],
    i: NodeId,
    h: Timestamp,
    first: Option<Range>,
    second: Option<Range>,
) -> Result<(), NodeId>
    requires i_bound { i.0 < 2 ^ 63 }
    requires h_bound { h.0 + 4 ≤ 2 * length codes.now }
    ensures { PairsExamined n codes.now i h.0 first second result }
{
    let next = NodeId(i.0 + 1);
    let later = Timestamp(h.0 + 2);
    examine_pair(n, codes, i, h, first)?;
    examine_pair(n, codes, next, later, second)
}

// What the step down from node i answers. Its details are there, at the numbers of its halves.
fn halves_at<C: Coefficients>(coefficients: C, i: NodeId, range: Option<Range>) -> Option<Halves>
    requires readings { Readings range }
    requires length_bound { length (C.listed coefficients) < 2 ^ 63 }
    requires i_in_bounds { 2 * i.0 + 2 ≤ length (C.listed coefficients) }
    ensures { result ≡ halves_in (C.listed coefficients) i range }
{
    let low_place = 2 * i.0;
    let high_place = low_place + 1;
    let low_detail = coefficients.at(low_place);
    let high_detail = coefficients.at(high_place);
    node::half_ranges(range, low_detail, high_detail)
}

// Examines node i, which covers four hours from h on and has this range, and then its two pairs. Its details and their
// codes are there.
fn examine_four<C: Coefficients>(
    n: usize,
    coefficients: C,
    codes: &[u8],
    i: NodeId,
    h: Timestamp,
    range: Option<Range>,
) -> Result<(), NodeId>
    requires readings { Readings range }
    requires length_bound { length (C.listed coefficients) < 2 ^ 63 }
    requires i_in_bounds { 2 * i.0 + 2 ≤ length (C.listed coefficients) }
    requires h_bound { h.0 + 4 ≤ 2 * length codes.now }
    ensures { FourExamined n (C.listed coefficients) codes.now i h.0 range result }
{
    let Halves { left, right } = halves_at(coefficients, i, range).ok_or(i)?;
    examine_pairs(n, codes, NodeId(2 * i.0), h, left, right)
}

// Examines node i, which covers `hours` hours from h on, at least eight, and has this range, and then all nodes below
// it, whose details and codes are there: each before its halves, left before right. The parts of a node come one by
// one, since a struct would be taken apart and made again for each half; they stand in two arrays, as C lends the
// table. [forms 8]
fn examine_below<C: Coefficients>(
    n: usize,
    coefficients: C,
    codes: &[u8],
    i: NodeId,
    h: Timestamp,
    hours: usize,
    range: Option<Range>,
) -> Result<(), NodeId>
    requires le_hours { 8 ≤ hours }
    requires readings { Readings range }
    requires length_bound { length (C.listed coefficients) < 2 ^ 63 }
    requires hours_in_bounds { (i.0 + 1) * (hours / 2) ≤ length (C.listed coefficients) }
    requires hours_bound { h.0 + hours ≤ 2 * length codes.now }
    ensures { Examined n (C.listed coefficients) codes.now i h.0 hours range result }
{
    let Halves { left, right } = halves_at(coefficients, i, range).ok_or(i)?;
    let left_node = NodeId(2 * i.0);
    let right_node = NodeId(2 * i.0 + 1);
    let half = hours / 2;
    let middle = Timestamp(h.0 + half);
    if hours < 16 {
        examine_four(n, coefficients, codes, left_node, h, left)?;
        return examine_four(n, coefficients, codes, right_node, middle, right);
    }
    examine_below(n, coefficients, codes, left_node, h, half, left)?;
    examine_below(n, coefficients, codes, right_node, middle, half, right)
}

// Examines a whole table of n hours and p = P places whose coefficients and codes are all there, wherever the former
// stand.
pub fn examine_in<C: Coefficients>(
    n: usize,
    p: usize,
    coefficients: C,
    codes: &[u8],
) -> Result<(), NodeId>
    requires p_value { p ≡ P n }
    requires length_bound { length (C.listed coefficients) < 2 ^ 63 }
    requires coefficients_there { p ≤ length (C.listed coefficients) }
    requires codes_there { p / 2 ≤ length codes.now }
    ensures { check_of result ≡ examine_table n (lent (C.listed coefficients) codes.now) }
{
    let range = node::root_range(coefficients.at(0), coefficients.at(1)).ok_or(NodeId(0))?;
    let root = NodeId(1);
    let start = Timestamp(0);
    if p < 4 {
        return examine_pair(n, codes, root, start, range);
    }
    if p < 8 {
        return examine_four(n, coefficients, codes, root, start, range);
    }
    examine_below(n, coefficients, codes, root, start, p, range)
}

// Examines a whole table.
pub fn examine(whole: LentTable) -> Result<(), NodeId>
    ensures { check_of result
        ≡ examine_table whole.entry.table.n
        (lent whole.entry.table.coefficients.now whole.entry.table.codes.now) }
{
    let Table {
        n,
        coefficients,
        codes,
    } = whole.table;
    examine_in(n, whole.p, coefficients, codes)
}

// Columns and days, drawn from a table; two answers joined.
//
//     21 n a b w k                         the edges of a column
//     22 n a b w k d coefficients codes    a column stopped at depth d
//     23 n a b w k coefficients codes      a finished column
//     24 left right                        joining two answers
//     25 n day coefficients codes          the change of a day
//
// An answer is found, which is 0 without a reading, the hours of the first reading and of the last, their grams, low
// and high.
//
// They tell the column's first hour and the hour after its last; both ranges and the count; the count, and in a line of
// its own the answer; found and the grams. Joining has no refusal and tells the answer alone.
//
// As in `table_calls`, the rooms come before all that is read.
use told::columns::{ToldAnswer, ToldChange, ToldColumn, ToldFinished, ToldRanges};
use vector_lines::{CODES, GRAMS, Numbers, room};

// A column of the input: the hours of the series, the window, its columns and the number of this one.
#[derive(Clone, Copy)]
struct Asked {
    n: usize,
    a: usize,
    b: usize,
    w: usize,
    column: usize,
}

// The column that comes next.
fn column_of(input: &mut Numbers) -> Asked {
    Asked {
        n: input.number(),
        a: input.number(),
        b: input.number(),
        w: input.number(),
        column: input.number(),
    }
}

// The answer that comes next.
fn answer_of(input: &mut Numbers) -> ToldAnswer {
    ToldAnswer {
        found: input.number(),
        first_hour: input.number(),
        last_hour: input.number(),
        first: input.number(),
        last: input.number(),
        low: input.number(),
        high: input.number(),
    }
}

// Writes an answer.
fn show(rt: &impl Print, told: ToldAnswer) {
    let ToldAnswer {
        found,
        first_hour,
        last_hour,
        first,
        last,
        low,
        high,
    } = told;
    let _ = println!(rt; "{found} {first_hour} {last_hour} {first} {last} {low} {high}");
}

// Asks for the edges of a column and writes the answer.
pub fn edges(rt: &impl Print, input: &mut Numbers) {
    let Asked { n, a, b, w, column } = column_of(input);
    let ToldColumn {
        number,
        place,
        from,
        upto,
    } = sagivelume::sagivelume_edges(n, a, b, w, column);
    let _ = println!(rt; "{number} {place} {from} {upto}");
}

// Stops a column at a depth and writes the answer.
pub fn stopped(rt: &impl Print, input: &mut Numbers) {
    let mut coefficients = room::<i32, GRAMS>();
    let mut codes = room::<u8, CODES>();
    let Asked { n, a, b, w, column } = column_of(input);
    let depth = input.number();
    let coefficients = input.lend(&mut coefficients);
    let codes = input.lend(&mut codes);
    let ToldRanges {
        number,
        place,
        outer_low,
        outer_high,
        inner_low,
        inner_high,
        count,
    } = sagivelume::sagivelume_stopped(n, coefficients, codes, a, b, w, column, depth);
    let _ = println!(rt;
        "{number} {place} {outer_low} {outer_high} {inner_low} {inner_high} {count}"
    );
}

// Finishes a column and writes the answer.
pub fn finished(rt: &impl Print, input: &mut Numbers) {
    let mut coefficients = room::<i32, GRAMS>();
    let mut codes = room::<u8, CODES>();
    let Asked { n, a, b, w, column } = column_of(input);
    let coefficients = input.lend(&mut coefficients);
    let codes = input.lend(&mut codes);
    let ToldFinished {
        number,
        place,
        answer,
        count,
    } = sagivelume::sagivelume_finished(n, coefficients, codes, a, b, w, column);
    let _ = println!(rt; "{number} {place} {count}");
    show(rt, answer);
}

// Joins two answers and writes theirs.
pub fn join(rt: &impl Print, input: &mut Numbers) {
    let left = answer_of(input);
    let right = answer_of(input);
    show(rt, sagivelume::sagivelume_join(left, right));
}

// Asks for the change of a day and writes the answer.
pub fn day_change(rt: &impl Print, input: &mut Numbers) {
    let mut coefficients = room::<i32, GRAMS>();
    let mut codes = room::<u8, CODES>();
    let n = input.number();
    let day = input.number();
    let coefficients = input.lend(&mut coefficients);
    let codes = input.lend(&mut codes);
    let ToldChange {
        number,
        place,
        found,
        grams,
    } = sagivelume::sagivelume_day_change(n, coefficients, codes, day);
    let _ = println!(rt; "{number} {place} {found} {grams}");
}

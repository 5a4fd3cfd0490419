// What the calls of columns answer.
ghost use Rattle.std.specs.Prelude.{◌≡◌};
ghost use Rattle.told.specs.Columns.{edges_told, stopped_told, answer_told, finished_told, change_told, answer_in};

use crate::tables::Told;
use words::{Column, Finished, Reading, Refusal, Stopped, Summary, Timestamp};

// The hours of a column: from `from` up to, not including, `upto`; 0 and 0 on a refusal.
#[repr(C)]
#[derive(Clone, Copy)]
pub struct ToldColumn {
    pub number: usize,
    pub place: usize,
    pub from: usize,
    pub upto: usize,
}

// A column stopped at a depth: low and high of an absent range are both 2,000,003. All are 0 on a refusal.
#[repr(C)]
#[derive(Clone, Copy)]
pub struct ToldRanges {
    pub number: usize,
    pub place: usize,
    pub outer_low: i32,
    pub outer_high: i32,
    pub inner_low: i32,
    pub inner_high: i32,
    pub count: usize,
}

// A finished column without its count. Where `found` is 0 there is no reading, and the other fields are answered as 0;
// anything else in `found` is a reading, and is answered as 1.
#[repr(C)]
#[derive(Clone, Copy)]
pub struct ToldAnswer {
    pub found: usize,
    pub first_hour: usize,
    pub last_hour: usize,
    pub first: i32,
    pub last: i32,
    pub low: i32,
    pub high: i32,
}

// A finished column: its answer, and its count. No reading and count 0 on a refusal.
#[repr(C)]
#[derive(Clone, Copy)]
pub struct ToldFinished {
    pub number: usize,
    pub place: usize,
    pub answer: ToldAnswer,
    pub count: usize,
}

// The change of a day: where `found` is 0 there is no reading, or the call is refused, and the grams are 0.
#[repr(C)]
#[derive(Clone, Copy)]
pub struct ToldChange {
    pub number: usize,
    pub place: usize,
    pub found: usize,
    pub grams: i32,
}

impl From<Result<Column, Refusal>> for ToldColumn {
    ghost from_gives = { λ e t. t ≡ edges_told e };

    fn from(answer: Result<Column, Refusal>) -> ToldColumn {
        let Told { number, place } = Told::of(&answer);
        let (from, upto) = answer.map_or((0, 0), |column| (column.from.0, column.upto.0));
        ToldColumn {
            number,
            place,
            from,
            upto,
        }
    }
}

impl From<Result<Stopped, Refusal>> for ToldRanges {
    ghost from_gives = { λ s t. t ≡ stopped_told s };

    fn from(answer: Result<Stopped, Refusal>) -> ToldRanges {
        let Told { number, place } = Told::of(&answer);
        match answer {
            Ok(done) => ToldRanges {
                number,
                place,
                outer_low: words::low_of(done.outer),
                outer_high: words::high_of(done.outer),
                inner_low: words::low_of(done.inner),
                inner_high: words::high_of(done.inner),
                count: done.count,
            },
            Err(_) => ToldRanges {
                number,
                place,
                outer_low: 0,
                outer_high: 0,
                inner_low: 0,
                inner_high: 0,
                count: 0,
            },
        }
    }
}

impl From<Option<Summary>> for ToldAnswer {
    ghost from_gives = { λ a t. t ≡ answer_told a };

    fn from(answer: Option<Summary>) -> ToldAnswer {
        match answer {
            None => ToldAnswer {
                found: 0,
                first_hour: 0,
                last_hour: 0,
                first: 0,
                last: 0,
                low: 0,
                high: 0,
            },
            Some(s) => ToldAnswer {
                found: 1,
                first_hour: s.first.hour.0,
                last_hour: s.last.hour.0,
                first: s.first.grams,
                last: s.last.grams,
                low: s.low,
                high: s.high,
            },
        }
    }
}

impl From<Result<Finished, Refusal>> for ToldFinished {
    ghost from_gives = { λ f t. t ≡ finished_told f };

    fn from(finished: Result<Finished, Refusal>) -> ToldFinished {
        let Told { number, place } = Told::of(&finished);
        let (answer, count) = finished.map_or((None, 0), |done| (done.answer, done.count));
        ToldFinished {
            number,
            place,
            answer: answer.into(),
            count,
        }
    }
}

impl From<Result<Option<i32>, Refusal>> for ToldChange {
    ghost from_gives = { λ c t. t ≡ change_told c };

    fn from(answer: Result<Option<i32>, Refusal>) -> ToldChange {
        let Told { number, place } = Told::of(&answer);
        let (found, grams) = answer.unwrap_or(None).map_or((0, 0), |grams| (1, grams));
        ToldChange {
            number,
            place,
            found,
            grams,
        }
    }
}

// An answer handed in by a caller.
impl From<ToldAnswer> for Option<Summary> {
    ghost from_gives = { λ t a. a ≡ answer_in t };

    fn from(t: ToldAnswer) -> Option<Summary> {
        if t.found == 0 {
            return None;
        }
        Some(Summary {
            first: Reading {
                hour: Timestamp(t.first_hour),
                grams: t.first,
            },
            last: Reading {
                hour: Timestamp(t.last_hour),
                grams: t.last,
            },
            low: t.low,
            high: t.high,
        })
    }
}

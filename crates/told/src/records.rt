// What the calls of the house record answer.
ghost use Rattle.std.specs.Prelude.{◌≡◌};
ghost use Rattle.told.specs.Records.{writing_told, unpacking_told, opening_told, asking_told};

use crate::tables::Told;
use words::{Opening, Refusal};

// What writing a record answers: how many bytes it has, 0 on a refusal.
#[repr(C)]
#[derive(Clone, Copy)]
pub struct ToldBytes {
    pub number: usize,
    pub place: usize,
    pub bytes: usize,
}

// What reading a record answers: the hours of its series, 0 on a refusal. C has them under a name of their own, so this
// is not ToldBytes.
#[repr(C)]
#[derive(Clone, Copy)]
pub struct ToldHours {
    pub number: usize,
    pub place: usize,
    pub hours: usize,
}

// What opening a record answers: the hours of its series and how many coefficients it has, 0 on a refusal.
#[repr(C)]
#[derive(Clone, Copy)]
pub struct ToldRecord {
    pub number: usize,
    pub place: usize,
    pub hours: usize,
    pub places: usize,
}

// What asking a record answers: the coefficient, 0 on a refusal.
#[repr(C)]
#[derive(Clone, Copy)]
pub struct ToldCoefficient {
    pub number: usize,
    pub place: usize,
    pub coefficient: i32,
}

impl From<Result<usize, Refusal>> for ToldBytes {
    ghost from_gives = { λ w t. t ≡ writing_told w };

    fn from(answer: Result<usize, Refusal>) -> ToldBytes {
        let Told { number, place } = Told::of(&answer);
        ToldBytes {
            number,
            place,
            bytes: answer.unwrap_or(0),
        }
    }
}

impl From<Result<usize, Refusal>> for ToldHours {
    ghost from_gives = { λ u t. t ≡ unpacking_told u };

    fn from(answer: Result<usize, Refusal>) -> ToldHours {
        let Told { number, place } = Told::of(&answer);
        ToldHours {
            number,
            place,
            hours: answer.unwrap_or(0),
        }
    }
}

impl From<Result<Opening, Refusal>> for ToldRecord {
    ghost from_gives = { λ o t. t ≡ opening_told o };

    fn from(answer: Result<Opening, Refusal>) -> ToldRecord {
        let Told { number, place } = Told::of(&answer);
        let (hours, places) = answer.map_or((0, 0), |opened| (opened.hours, opened.places));
        ToldRecord {
            number,
            place,
            hours,
            places,
        }
    }
}

impl From<Result<i32, Refusal>> for ToldCoefficient {
    ghost from_gives = { λ a t. t ≡ asking_told a };

    fn from(answer: Result<i32, Refusal>) -> ToldCoefficient {
        let Told { number, place } = Told::of(&answer);
        ToldCoefficient {
            number,
            place,
            coefficient: answer.unwrap_or(0),
        }
    }
}

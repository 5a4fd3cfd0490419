// What making a table and turning it back answer.
ghost use Rattle.std.specs.Prelude.{◌≡◌};
ghost use Rattle.told.specs.Tables.{told_of, taking_told};

use words::Refusal;

// What stands for the refusal's number and place where a call is taken.
const TAKEN: usize = 0;

const NO_PLACE: usize = 0;

// A call's answer: the refusal's number, 0 where the call is taken, and its place.
#[repr(C)]
#[derive(Clone, Copy)]
pub struct Told {
    pub number: usize,
    pub place: usize,
}

impl Told {
    // What each struct begins with: whether the call is taken, or why not.
    pub(crate) fn of<T>(answer: &Result<T, Refusal>) -> Told
        ensures { result ≡ told_of answer.now }
    {
        match answer {
            Ok(_) => Told {
                number: TAKEN,
                place: NO_PLACE,
            },
            Err(why) => Told {
                number: words::number_of(*why),
                place: words::place_of(*why),
            },
        }
    }
}

impl From<Result<(), Refusal>> for Told {
    ghost from_gives = { λ a t. t ≡ taking_told a };

    fn from(answer: Result<(), Refusal>) -> Told {
        Told::of(&answer)
    }
}

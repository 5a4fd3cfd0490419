// The kinds of calls, and the number that each has in the input.

// What a call does.
#[derive(Clone, Copy)]
pub enum Kind {
    Make,
    TurnBack,
    Level,
    Sizes,
    Rebuild,
    Write,
    Read,
    Open,
    Ask,
    AskRecord,
    Edges,
    Stopped,
    Finished,
    Join,
    DayChange,
}

// A number that is no kind.
#[derive(Clone, Copy)]
pub struct NoKind;

impl TryFrom<usize> for Kind {
    type Error = NoKind;

    fn try_from(number: usize) -> Result<Kind, NoKind> {
        match number {
            1 => Ok(Kind::Make),
            2 => Ok(Kind::TurnBack),
            3 => Ok(Kind::Level),
            4 => Ok(Kind::Sizes),
            5 => Ok(Kind::Rebuild),
            11 => Ok(Kind::Write),
            12 => Ok(Kind::Read),
            13 => Ok(Kind::Open),
            14 => Ok(Kind::Ask),
            15 => Ok(Kind::AskRecord),
            21 => Ok(Kind::Edges),
            22 => Ok(Kind::Stopped),
            23 => Ok(Kind::Finished),
            24 => Ok(Kind::Join),
            25 => Ok(Kind::DayChange),
            _ => Err(NoKind),
        }
    }
}

// The view of a record: its bytes and P, to be asked for single coefficients without unpacking. [level 3] [forms 13]
#![tactic(auto)]

ghost use Rattle.std.specs.Prelude.{◌≡◌};
ghost use Rattle.om3.specs.RecordCalls.{asking_view, asking};
ghost use Rattle.view.specs.View.{view_of, viewing};

use words::Refusal;

// A record's bytes, and how many coefficients it has. The view of bytes that opening refuses has 0 places, and each
// place asked for is refused with 13.
#[derive(Clone, Copy)]
pub struct View<'a> {
    pub bytes: &'a [u8],
    pub places: usize,
}

// Opens a record: its view, or why opening refuses.
#[tactic(auto, using(crate::proofs::Viewed::opened))]
pub fn try_open<'a>(bytes: &'a [u8]) -> Result<View<'a>, Refusal>
    ensures { result ≡ viewing bytes.entry }
{
    let opened = opening::open_record(bytes)?;
    Ok(View {
        bytes,
        places: opened.places,
    })
}

// The view of these bytes, whatever they are. Whoever wants to know why opening refuses calls `try_open`. It stays
// beside that, since what it answers of any bytes is promised (`view_of`).
#[tactic(auto, using(crate::proofs::Viewed::viewed))]
pub fn open<'a>(bytes: &'a [u8]) -> View<'a>
    ensures { result ≡ view_of bytes.entry }
{
    try_open(bytes).unwrap_or(View { bytes, places: 0 })
}

// The coefficient at a place of a view. Refusals in the order 13, 8; the second comes for no view that `open` gives.
pub fn ask<'a>(view: View<'a>, place: usize) -> Result<i32, Refusal>
    ensures { result ≡ asking_view view.entry.bytes.now view.entry.places place }
{
    opening::ask(view.bytes, view.places, place)
}

// Opens a record and asks its view. Refusals of opening, then 13.
#[tactic(auto, using(crate::proofs::Viewed::asked))]
pub fn ask_record(bytes: &[u8], place: usize) -> Result<i32, Refusal>
    ensures { result ≡ asking bytes.now place }
{
    let view = try_open(bytes)?;
    ask(view, place)
}

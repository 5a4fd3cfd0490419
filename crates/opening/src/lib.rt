// Opening a record, and asking it for single coefficients without unpacking it. [level 3]
#![tactic(auto)]

ghost use Rattle.std.specs.Prelude.{◌≡◌};
ghost use Rattle.om3.specs.RecordCalls.{opening as opening_of, asking_view};

use words::{Opening, Refusal};

// Opens a record: what it says of its hours, and how many coefficients it has. Refusals in the order 8 (under 7
// bytes), 9, 1, 10, 8 (fewer bytes than stated), 11.
#[tactic(auto, using(crate::proofs::Opened::opening_laws))]
pub fn open_record(bytes: &[u8]) -> Result<Opening, Refusal>
    ensures { result ≡ opening_of bytes.now }
{
    if bytes.len() < words::HEADER_SIZE {
        return Err(Refusal::CutShort);
    }
    if bytes[words::LENGTH_SIZE] != words::VERSION {
        return Err(Refusal::BadVersion);
    }
    let hours = packing::number_from(&bytes[words::HOURS_AT..words::HEADER_SIZE]);
    if sizes::bad_hours(hours) {
        return Err(Refusal::BadHours);
    }
    let places = sizes::places(hours);
    let size = sizes::record_size(places);
    if words::LENGTH_SIZE + packing::number_from(&bytes[0..words::LENGTH_SIZE]) != size {
        return Err(Refusal::BadLength);
    }
    if bytes.len() < size {
        return Err(Refusal::CutShort);
    }
    if size < bytes.len() {
        return Err(Refusal::BytesAfter);
    }
    Ok(Opening { hours, places })
}

// The coefficient at a place of a record that was opened and has so many of them. Refusals in the order 13, 8; the
// second comes for no record that opening takes. Bytes, places and place come one by one, as C hands them over.
#[tactic(auto, using(crate::proofs::Asked::asking_laws))]
pub fn ask(bytes: &[u8], places: usize, place: usize) -> Result<i32, Refusal>
    ensures { result ≡ asking_view bytes.now places place }
{
    if places <= place {
        return Err(Refusal::BadPlace);
    }
    let Some(packed) = bytes.get(words::HEADER_SIZE..) else {
        return Err(Refusal::CutShort);
    };
    if packed.len() / words::COEFFICIENT_SIZE <= place {
        return Err(Refusal::CutShort);
    }
    Ok(packing::coefficient_at(packed, place))
}

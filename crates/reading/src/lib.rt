// Reading a house record into a table. The table is examined where it stands in the record's bytes, so that nothing is
// written before it is known to be sound.
#![tactic(auto)]

ghost use Rattle.examining_bytes.specs.Packed.{PackedTable};
ghost use Rattle.reading.specs.Reading.{PartsRead, RecordRead};

use words::{Opening, Refusal};

// Reads an opened record of n hours and P places, its packed coefficients and its codes, into the first places of the
// buffers.
fn read_parts(
    n: usize,
    places: usize,
    packed: &[u8],
    codes_in: &[u8],
    coefficients: &mut [i32],
    codes: &mut [u8],
) -> Result<usize, Refusal>
    requires { PackedTable n places packed.now codes_in.now }
    ensures { PartsRead n packed.now codes_in.now
        coefficients.old codes.old coefficients.new codes.new result }
{
    if sizes::table_short(places, coefficients.len(), codes.len()) {
        return Err(Refusal::ShortBuffer);
    }
    examining_bytes::examine(n, places, packed, codes_in).map_err(Refusal::Unsound)?;
    packing::unpack(packed, &mut coefficients[..places]);
    codes[..codes_in.len()].copy_from_slice(codes_in);
    Ok(n)
}

// Reads a record: the table it holds, and the hours of its series. Refusals of opening, then 3, 4; on a refusal nothing
// is written.
pub fn read_record(
    bytes: &[u8],
    coefficients: &mut [i32],
    codes: &mut [u8],
) -> Result<usize, Refusal>
    ensures { RecordRead bytes.now
        coefficients.old codes.old coefficients.new codes.new result }
{
    let Opening { hours, places } = opening::open_record(bytes)?;
    let at = words::HEADER_SIZE + words::COEFFICIENT_SIZE * places;
    let packed = &bytes[words::HEADER_SIZE..at];
    read_parts(hours, places, packed, &bytes[at..], coefficients, codes)
}

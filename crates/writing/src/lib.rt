// Writing the house record of a table.
#![tactic(auto)]

ghost use Rattle.std.specs.Prelude.{◌≡◌, ◌≤◌, length};
ghost use Rattle.om3.specs.Table.{lent};
ghost use Rattle.om3.specs.Calls.{filled};
ghost use Rattle.om3.specs.Record.{header_of, header_size, record_of};
ghost use Rattle.writing.specs.Writing.{Ready, RecordWritten};

use words::Refusal;

// Writes the fields before the coefficients, for which there is room: the length of what follows the first field, the
// version, and n.
fn put_header(stated: usize, n: usize, bytes: &mut [u8])
    requires { header_size ≤ length bytes.old }
    ensures { bytes.new ≡ filled (header_of stated n) bytes.old }
{
    packing::put_number(stated, &mut bytes[0..words::LENGTH_SIZE]);
    bytes[words::LENGTH_SIZE] = words::VERSION;
    packing::put_number(n, &mut bytes[words::HOURS_AT..words::HEADER_SIZE]);
}

// Writes the record of n hours with these P coefficients, each of which three bytes hold, and P/2 codes into the first
// bytes of a buffer that has room for it. The codes stand directly after the last coefficient. Hours, coefficients and
// codes stay apart: a struct for this one call would be no plainer. [forms 6]
fn put_record(n: usize, coefficients: &[i32], codes: &[u8], bytes: &mut [u8])
    requires { Ready n coefficients.now codes.now (length bytes.old) }
    ensures { bytes.new
        ≡ filled (record_of n (lent coefficients.now codes.now)) bytes.old }
{
    let places = coefficients.len();
    let size = sizes::record_size(places);
    put_header(size - words::LENGTH_SIZE, n, bytes);
    let at = words::HEADER_SIZE + words::COEFFICIENT_SIZE * places;
    packing::pack(coefficients, &mut bytes[words::HEADER_SIZE..at]);
    let end = at + codes.len();
    bytes[at..end].copy_from_slice(codes);
}

// Writes the record of a table of n hours. Refusals in the order 1, 3, 4; on a refusal nothing is written.
pub fn write_record(
    n: usize,
    coefficients: &[i32],
    codes: &[u8],
    bytes: &mut [u8],
) -> Result<usize, Refusal>
    ensures { RecordWritten n coefficients.now codes.now
        bytes.old bytes.new result }
{
    let whole = sizes::lent_table(n, coefficients, codes)?;
    let size = sizes::record_size(whole.p);
    if bytes.len() < size {
        return Err(Refusal::ShortBuffer);
    }
    examining::examine(whole).map_err(Refusal::Unsound)?;
    put_record(n, &coefficients[..whole.p], &codes[..whole.p / 2], bytes);
    Ok(size)
}

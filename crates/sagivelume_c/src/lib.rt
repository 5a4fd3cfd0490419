// The boundary as C and Rust link it: each call of sagivelume under its name, with the same clauses, since a static
// library exports no function but its own. Numbers pass as themselves, a slice as a pointer and then a length, and an
// answer as a struct by value.
#![tactic(auto)]

ghost use Rattle.std.specs.Prelude.{◌≡◌, length};
ghost use Rattle.om3.specs.Table.{lent};
ghost use Rattle.om3.specs.Level.{level_stretch};
ghost use Rattle.om3.specs.RecordCalls.{opening as opening_of, asking_view};
ghost use Rattle.om3.specs.Columns.{edges};
ghost use Rattle.om3.specs.Stopped.{stopped};
ghost use Rattle.om3.specs.Finished.{finished};
ghost use Rattle.om3.specs.Joined.{joined};
ghost use Rattle.om3.specs.Days.{day_change};
ghost use Rattle.sizes.specs.Needed.{places_needed, bytes_needed};
ghost use Rattle.making.specs.Making.{Made};
ghost use Rattle.turning.specs.Turning.{TurnedBack};
ghost use Rattle.old_log.specs.Rebuilding.{Rebuilt};
ghost use Rattle.writing.specs.Writing.{RecordWritten};
ghost use Rattle.reading.specs.Reading.{RecordRead};
ghost use Rattle.told.specs.Tables.{taking_told};
ghost use Rattle.told.specs.Records.{writing_told, unpacking_told, opening_told, asking_told};
ghost use Rattle.told.specs.Columns.{edges_told, stopped_told, answer_told, answer_in, finished_told, change_told};
ghost use Rattle.sagivelume.specs.Boundary.{Tells};

use told::columns::{ToldAnswer, ToldChange, ToldColumn, ToldFinished, ToldRanges};
use told::records::{ToldBytes, ToldCoefficient, ToldHours, ToldRecord};
use told::tables::Told;
use words::Stretch;

// How many coefficients the table of n hours has, P, and half as many codes; 0 if n is no number of hours.
#[unsafe(no_mangle)]
pub extern "C" fn sagivelume_places(n: usize) -> usize
    ensures { result ≡ places_needed n }
{
    sagivelume::sagivelume_places(n)
}

// How many bytes the record of n hours has; 0 if n is no number of hours.
#[unsafe(no_mangle)]
pub extern "C" fn sagivelume_record_bytes(n: usize) -> usize
    ensures { result ≡ bytes_needed n }
{
    sagivelume::sagivelume_record_bytes(n)
}

// Makes the table of n hours of readings: needs n readings, P coefficients and P/2 codes. Refusals 1, 3, 2.
#[unsafe(no_mangle)]
pub extern "C" fn sagivelume_make(
    n: usize,
    readings: &[i32],
    coefficients: &mut [i32],
    codes: &mut [u8],
) -> Told
    ensures { Tells (Made n readings.now coefficients.old codes.old
        coefficients.new codes.new) taking_told result }
{
    sagivelume::sagivelume_make(n, readings, coefficients, codes)
}

// Turns a table of n hours back: needs P coefficients, P/2 codes and room for n hours. Refusals 1, 3, 4.
#[unsafe(no_mangle)]
pub extern "C" fn sagivelume_turn_back(
    n: usize,
    coefficients: &[i32],
    codes: &[u8],
    hours: &mut [i32],
) -> Told
    ensures { Tells (TurnedBack n coefficients.now codes.now
        hours.old hours.new) taking_told result }
{
    sagivelume::sagivelume_turn_back(n, coefficients, codes, hours)
}

// Rebuilds the series of an old scale's log of n hours, from the weight at its first recorded hour: needs n counts, n
// flags and room for n hours. Refusals 1, 3, 14, 15, 2.
#[unsafe(no_mangle)]
pub extern "C" fn sagivelume_rebuild(
    n: usize,
    counts: &[u16],
    flags: &[u8],
    start: i32,
    hours: &mut [i32],
) -> Told
    ensures { Tells (Rebuilt n counts.now flags.now start
        hours.old hours.new) taking_told result }
{
    sagivelume::sagivelume_rebuild(n, counts, flags, start, hours)
}

// Where level j's details stand in the lent coefficients of a table of n hours; length 0 where there is no such level.
#[unsafe(no_mangle)]
pub extern "C" fn sagivelume_level(n: usize, j: usize, coefficients: &[i32]) -> Stretch
    ensures { result ≡ level_stretch n j (length coefficients.now) }
{
    sagivelume::sagivelume_level(n, j, coefficients)
}

// Writes the record of a table of n hours: needs P coefficients, P/2 codes and room for 7 + 3P + P/2 bytes. Refusals
// 1, 3, 4.
#[unsafe(no_mangle)]
pub extern "C" fn sagivelume_write_record(
    n: usize,
    coefficients: &[i32],
    codes: &[u8],
    bytes: &mut [u8],
) -> ToldBytes
    ensures { Tells (RecordWritten n coefficients.now codes.now
        bytes.old bytes.new) writing_told result }
{
    sagivelume::sagivelume_write_record(n, coefficients, codes, bytes)
}

// Reads a record into a table: needs room for P coefficients and P/2 codes. Refusals 8, 9, 1, 10, 8, 11, 3, 4.
#[unsafe(no_mangle)]
pub extern "C" fn sagivelume_read_record(
    bytes: &[u8],
    coefficients: &mut [i32],
    codes: &mut [u8],
) -> ToldHours
    ensures { Tells (RecordRead bytes.now coefficients.old codes.old
        coefficients.new codes.new) unpacking_told result }
{
    sagivelume::sagivelume_read_record(bytes, coefficients, codes)
}

// Opens a record without unpacking it. Refusals 8, 9, 1, 10, 8, 11.
#[unsafe(no_mangle)]
pub extern "C" fn sagivelume_open_record(bytes: &[u8]) -> ToldRecord
    ensures { result ≡ opening_told (opening_of bytes.now) }
{
    sagivelume::sagivelume_open_record(bytes)
}

// Asks an opened record, which has so many places, for the coefficient at one of them. Refusals 13, 8.
#[unsafe(no_mangle)]
pub extern "C" fn sagivelume_ask(bytes: &[u8], places: usize, place: usize) -> ToldCoefficient
    ensures { result ≡ asking_told (asking_view bytes.now places place) }
{
    sagivelume::sagivelume_ask(bytes, places, place)
}

// The hours of column `column` of the window [a, b) in w columns. Refusals 1, 5, 6.
#[unsafe(no_mangle)]
pub extern "C" fn sagivelume_edges(
    n: usize,
    a: usize,
    b: usize,
    w: usize,
    column: usize,
) -> ToldColumn
    ensures { result ≡ edges_told (edges n a b w column) }
{
    sagivelume::sagivelume_edges(n, a, b, w, column)
}

// That column stopped at a depth, from a table of n hours: needs P coefficients and P/2 codes. Refusals 1, 3, 5, 6, 7,
// 4.
#[unsafe(no_mangle)]
pub extern "C" fn sagivelume_stopped(
    n: usize,
    coefficients: &[i32],
    codes: &[u8],
    a: usize,
    b: usize,
    w: usize,
    column: usize,
    depth: usize,
) -> ToldRanges
    ensures { result
        ≡ stopped_told (stopped n (lent coefficients.now codes.now) a b w column depth) }
{
    sagivelume::sagivelume_stopped(n, coefficients, codes, a, b, w, column, depth)
}

// That column finished: needs P coefficients and P/2 codes. Refusals 1, 3, 5, 6, 4.
#[unsafe(no_mangle)]
pub extern "C" fn sagivelume_finished(
    n: usize,
    coefficients: &[i32],
    codes: &[u8],
    a: usize,
    b: usize,
    w: usize,
    column: usize,
) -> ToldFinished
    ensures { result
        ≡ finished_told (finished n (lent coefficients.now codes.now) a b w column) }
{
    sagivelume::sagivelume_finished(n, coefficients, codes, a, b, w, column)
}

// The answer of the hours on the left and the answer of those on the right, together. No refusal.
#[unsafe(no_mangle)]
pub extern "C" fn sagivelume_join(left: ToldAnswer, right: ToldAnswer) -> ToldAnswer
    ensures { result ≡ answer_told (joined (answer_in left) (answer_in right)) }
{
    sagivelume::sagivelume_join(left, right)
}

// The change of a day, from a table of n hours: its last reading minus the latest before that day, or minus its own
// first. Needs P coefficients and P/2 codes. Refusals 1, 3, 5, 4.
#[unsafe(no_mangle)]
pub extern "C" fn sagivelume_day_change(
    n: usize,
    coefficients: &[i32],
    codes: &[u8],
    day: usize,
) -> ToldChange
    ensures { result ≡ change_told (day_change n (lent coefficients.now codes.now) day) }
{
    sagivelume::sagivelume_day_change(n, coefficients, codes, day)
}

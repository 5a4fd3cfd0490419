// Records: written, read, opened and asked. The last is a call of the view, which opens and asks at once.
//
//     11 n coefficients codes record       writing
//     12 record coefficients codes         reading
//     13 record                            opening
//     14 places place record               asking an opened record, which has so many places
//     15 place record                      opening and asking
//
// They tell how many bytes were written, the hours read, the hours and the places opened, the coefficient.
//
// As in `table_calls`, the rooms come before all that is read.
use told::records::{ToldBytes, ToldCoefficient, ToldHours, ToldRecord};
use vector_lines::{CODES, Content, GRAMS, Numbers, RECORD, room};

// Writes a record and writes the answer.
pub fn write(rt: &impl Print, input: &mut Numbers) {
    let mut coefficients = room::<i32, GRAMS>();
    let mut codes = room::<u8, CODES>();
    let mut bytes = room::<u8, RECORD>();
    let n = input.number();
    let coefficients = input.lend(&mut coefficients);
    let codes = input.lend(&mut codes);
    let bytes = input.lend(&mut bytes);
    let ToldBytes {
        number,
        place,
        bytes: size,
    } = sagivelume::sagivelume_write_record(n, coefficients, codes, bytes);
    let _ = println!(rt; "{number} {place} {size}{}", Content(bytes));
}

// Reads a record and writes the answer.
pub fn read(rt: &impl Print, input: &mut Numbers) {
    let mut bytes = room::<u8, RECORD>();
    let mut coefficients = room::<i32, GRAMS>();
    let mut codes = room::<u8, CODES>();
    let bytes = input.lend(&mut bytes);
    let coefficients = input.lend(&mut coefficients);
    let codes = input.lend(&mut codes);
    let ToldHours {
        number,
        place,
        hours,
    } = sagivelume::sagivelume_read_record(bytes, coefficients, codes);
    let _ = println!(rt;
        "{number} {place} {hours}{}{}",
        Content(coefficients),
        Content(codes)
    );
}

// Opens a record and writes the answer.
pub fn open(rt: &impl Print, input: &mut Numbers) {
    let mut bytes = room::<u8, RECORD>();
    let bytes = input.lend(&mut bytes);
    let ToldRecord {
        number,
        place,
        hours,
        places,
    } = sagivelume::sagivelume_open_record(bytes);
    let _ = println!(rt; "{number} {place} {hours} {places}");
}

// Writes a coefficient that was asked for.
fn show(rt: &impl Print, told: ToldCoefficient) {
    let ToldCoefficient {
        number,
        place,
        coefficient,
    } = told;
    let _ = println!(rt; "{number} {place} {coefficient}");
}

// Asks an opened record and writes the answer.
pub fn ask(rt: &impl Print, input: &mut Numbers) {
    let mut bytes = room::<u8, RECORD>();
    let places = input.number();
    let place = input.number();
    let bytes = input.lend(&mut bytes);
    show(rt, sagivelume::sagivelume_ask(bytes, places, place));
}

// Opens a record, asks it, and writes the answer.
pub fn ask_record(rt: &impl Print, input: &mut Numbers) {
    let mut bytes = room::<u8, RECORD>();
    let place = input.number();
    let bytes = input.lend(&mut bytes);
    show(rt, view::ask_record(bytes, place).into());
}

// Tables: made and turned back, one level of them, how large they are; the series of an old log.
//
//     1 n readings coefficients codes      making
//     2 n coefficients codes hours         turning back
//     3 n j coefficients                   level j
//     4 n                                  sizes
//     5 n start counts flags hours         rebuilding
//
// Making, turning back and rebuilding tell nothing but the refusal. A level has none: it tells the first place of the
// stretch and its length. Nor have sizes: the places of a table are told, and the bytes of its record.
//
// Each call makes its own rooms, and then its buffers: one function of all calls would be no plainer. The rooms come
// before all that is read, since one that is made after a read is cleared twice.
use told::tables::Told;
use vector_lines::{CODES, Content, GRAMS, Numbers, RECORD, room};
use words::Stretch;

// Makes a table and writes the answer.
pub fn make(rt: &impl Print, input: &mut Numbers) {
    let mut readings = room::<i32, GRAMS>();
    let mut coefficients = room::<i32, GRAMS>();
    let mut codes = room::<u8, CODES>();
    let n = input.number();
    let readings = input.lend(&mut readings);
    let coefficients = input.lend(&mut coefficients);
    let codes = input.lend(&mut codes);
    let Told { number, place } = sagivelume::sagivelume_make(n, readings, coefficients, codes);
    let _ = println!(rt;
        "{number} {place}{}{}",
        Content(coefficients),
        Content(codes)
    );
}

// Turns a table back and writes the answer.
pub fn turn_back(rt: &impl Print, input: &mut Numbers) {
    let mut coefficients = room::<i32, GRAMS>();
    let mut codes = room::<u8, CODES>();
    let mut hours = room::<i32, GRAMS>();
    let n = input.number();
    let coefficients = input.lend(&mut coefficients);
    let codes = input.lend(&mut codes);
    let hours = input.lend(&mut hours);
    let Told { number, place } = sagivelume::sagivelume_turn_back(n, coefficients, codes, hours);
    let _ = println!(rt; "{number} {place}{}", Content(hours));
}

// Finds a level and writes the answer.
pub fn level(rt: &impl Print, input: &mut Numbers) {
    let mut coefficients = room::<i32, GRAMS>();
    let n = input.number();
    let j = input.number();
    let coefficients = input.lend(&mut coefficients);
    let Stretch { start, length } = sagivelume::sagivelume_level(n, j, coefficients);
    let _ = println!(rt; "{start} {length}");
}

// Writes how large a table and its record are.
pub fn sizes(rt: &impl Print, input: &mut Numbers) {
    let n = input.number();
    let places = sagivelume::sagivelume_places(n);
    let bytes = sagivelume::sagivelume_record_bytes(n);
    let _ = println!(rt; "{places} {bytes}");
}

// Rebuilds the series of an old log and writes the answer.
pub fn rebuild(rt: &impl Print, input: &mut Numbers) {
    let mut counts = room::<u16, GRAMS>();
    let mut flags = room::<u8, RECORD>();
    let mut hours = room::<i32, GRAMS>();
    let n = input.number();
    let start = input.number();
    let counts = input.lend(&mut counts);
    let flags = input.lend(&mut flags);
    let hours = input.lend(&mut hours);
    let Told { number, place } = sagivelume::sagivelume_rebuild(n, counts, flags, start, hours);
    let _ = println!(rt; "{number} {place}{}", Content(hours));
}

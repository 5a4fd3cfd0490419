// Prints what the column printer prints for each of many texts, handed on in pieces: the texts of the second program,
// which also wrote what is to come out.
//
// On standard input a text is a line with its length in bytes and with how many bytes a piece has, one space apart, and
// then its bytes. What is written is what the printer prints for it, and an empty line.
//
// What is read and printed is stated and proved where it stands. As in `vector_lines`, which reads the numbers, the
// contracts here say no more than safety needs.
#![tactic(auto)]

use vector_lines::Numbers;

// Prints what is printed for a text in pieces of so many bytes, one at least. What cannot be written is passed over.
// The loop is that of the printer, which says why there is not one for all.
fn show(rt: &impl Print, text: &[u8], size: usize) {
    let mut line = [0u8; parsing::KEPT];
    let mut hours = [0i32; words::LARGEST_HOURS];
    let mut coefficients = [0i32; words::LARGEST_HOURS];
    let mut codes = [0u8; words::LARGEST_HOURS / 2];
    let mut read = parsing::begin();
    for piece in text.chunks(size.max(1)) {
        read = parsing::read(read, piece, &mut line, &mut hours);
    }
    let closed = parsing::close(read, &line, &mut hours);
    let drawing = printing::decide(closed, &hours, &mut coefficients, &mut codes);
    let mut out = [0u8; printing::ROOM];
    for from in (0..words::MOST_COLUMNS).step_by(printing::COLUMNS_AT_ONCE) {
        let size = printing::print(drawing, &coefficients, &codes, from, &mut out);
        let _ = rt.write_all(&out[..size]);
    }
    let _ = println!(rt);
}

// Shows the text whose length comes next.
fn show_next(rt: &impl Print, input: &mut Numbers) {
    let length = input.number();
    let size = input.number();
    show(rt, input.bytes(length), size);
}

fn main(rt: HostRuntime) {
    vector_lines::answer_all(&rt, |input| show_next(&rt, input));
}

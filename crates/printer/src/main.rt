// The column printer: draws the window that line 1 of standard input names from the hours on the further lines, and
// prints its columns to standard output, or one line that says why there are none.
//
// What is read and what is printed is stated and proved in `parsing` and `printing`, and how it comes and goes in
// `streams`. Output is written piece by piece. Where the system cannot read or write, one line on standard error says
// so; input that was not read to its end is not drawn.
#![tactic(auto)]

use printing::Drawing;
use words::Refusal;

// Prints piece after piece, up to the last column that there can be, as far as they can be written.
// The old log reader has the same loop: a closure that prints into `&mut [u8; ROOM]`, a const parameter, gets no proof.
fn print_all(
    rt: &HostRuntime,
    drawing: Result<Drawing, Refusal>,
    coefficients: &[i32; words::LARGEST_HOURS],
    codes: &[u8; words::LARGEST_HOURS / 2],
) {
    let mut out = [0u8; printing::ROOM];
    for from in (0..words::MOST_COLUMNS).step_by(printing::COLUMNS_AT_ONCE) {
        let size = printing::print(drawing, coefficients, codes, from, &mut out);
        if !streams::write_piece(rt, b"printer: cannot write standard output", &out[..size]) {
            return;
        }
    }
}

// The old log reader has a main of this shape, over other buffers of fixed size: a common one would be no plainer.
fn main(rt: HostRuntime) {
    let mut line = [0u8; parsing::KEPT];
    let mut hours = [0i32; words::LARGEST_HOURS];
    let mut coefficients = [0i32; words::LARGEST_HOURS];
    let mut codes = [0u8; words::LARGEST_HOURS / 2];
    let cannot = b"printer: cannot read standard input";
    if let Some(text) = streams::read_text(&rt, cannot, &mut line, &mut hours) {
        let closed = parsing::close(text, &line, &mut hours);
        let drawing = printing::decide(closed, &hours, &mut coefficients, &mut codes);
        print_all(&rt, drawing, &coefficients, &codes);
    }
}

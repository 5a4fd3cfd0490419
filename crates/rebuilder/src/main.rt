// The old log reader: rebuilds the series of an old scale from its start, which line 1 of standard input names, and
// from the counts on the further lines, and prints it to standard output as the printer reads a log, or one line that
// says why there is none.
//
// What is read and what is printed is stated and proved in `parsing` and `old_text`, and how it comes and goes in
// `streams`. Output is written piece by piece. Where the system cannot read or write, one line on standard error says
// so; input that was not read to its end is not rebuilt.
#![tactic(auto)]

use words::Refusal;

// Prints piece after piece, up to the last hour that there can be, as far as they can be written.
// The column printer has the same loop: a closure that prints into `&mut [u8; ROOM]`, a const parameter, gets no proof.
fn print_all(
    rt: &HostRuntime,
    rebuilding: Result<usize, Refusal>,
    hours: &[i32; words::LARGEST_HOURS],
) {
    let mut out = [0u8; old_text::ROOM];
    for from in (0..words::LARGEST_HOURS).step_by(old_text::HOURS_AT_ONCE) {
        let size = old_text::print(rebuilding, hours, from, &mut out);
        if !streams::write_piece(rt, b"rebuilder: cannot write standard output", &out[..size]) {
            return;
        }
    }
}

// The column printer has a main of this shape, over other buffers of fixed size: a common one would be no plainer.
fn main(rt: HostRuntime) {
    let mut line = [0u8; parsing::KEPT];
    let mut hours = [0i32; words::LARGEST_HOURS];
    let mut counts = [0u16; words::LARGEST_HOURS];
    let mut flags = [0u8; words::LARGEST_HOURS];
    let cannot = b"rebuilder: cannot read standard input";
    if let Some(text) = streams::read_text(&rt, cannot, &mut line, &mut hours) {
        let closed = parsing::close(text, &line, &mut hours);
        let rebuilding = old_text::decide(closed, &mut counts, &mut flags, &mut hours);
        print_all(&rt, rebuilding, &hours);
    }
}

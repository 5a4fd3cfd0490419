// Makes the calls that stand on standard input and writes what each answers: the vectors of the second program, which
// also wrote what is to come out.
//
// A call is its kind, the numbers that it takes, and its buffers, each its length and then its content. The tens of a
// kind are its group; what each kind of a group takes and tells stands in the group's file. What is written is the
// number of the refusal, 0 if the call was taken, its place, what the call tells, and the whole content of each buffer
// that was lent to be written. What cannot be written is passed over, and is missing in what is compared.
//
// What the calls answer is stated and proved where they stand. As in `vector_lines`, which reads and writes the
// numbers, the contracts here say no more than safety needs.
#![tactic(auto)]

mod column_calls;
mod kinds;
mod record_calls;
mod table_calls;

use kinds::Kind;
use vector_lines::Numbers;

// Answers a call, which begins with its kind. A number that is no kind is passed over.
fn answer(rt: &impl Print, input: &mut Numbers) {
    let Ok(kind) = Kind::try_from(input.number::<usize>()) else {
        return;
    };
    match kind {
        Kind::Make => table_calls::make(rt, input),
        Kind::TurnBack => table_calls::turn_back(rt, input),
        Kind::Level => table_calls::level(rt, input),
        Kind::Sizes => table_calls::sizes(rt, input),
        Kind::Rebuild => table_calls::rebuild(rt, input),
        Kind::Write => record_calls::write(rt, input),
        Kind::Read => record_calls::read(rt, input),
        Kind::Open => record_calls::open(rt, input),
        Kind::Ask => record_calls::ask(rt, input),
        Kind::AskRecord => record_calls::ask_record(rt, input),
        Kind::Edges => column_calls::edges(rt, input),
        Kind::Stopped => column_calls::stopped(rt, input),
        Kind::Finished => column_calls::finished(rt, input),
        Kind::Join => column_calls::join(rt, input),
        Kind::DayChange => column_calls::day_change(rt, input),
    }
}

fn main(rt: HostRuntime) {
    vector_lines::answer_all(&rt, |input| answer(&rt, input));
}

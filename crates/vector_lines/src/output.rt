// The buffers of answers, as they are written.
use std::fmt;

// The whole content of a buffer: eight numbers to a line, each with how many times it comes, if more than once.
#[derive(Drop)]
pub struct Content<'a, T>(pub &'a [T]);

impl<T: fmt::Display + PartialEq> fmt::Display for Content<'_, T> {
    fn fmt<W: fmt::Write>(&self, f: &mut fmt::Formatter<W>) -> fmt::Result {
        for (k, run) in self.0.chunk_by(|a, b| a == b).enumerate() {
            let before = if k % 8 == 0 { '\n' } else { ' ' };
            match run {
                [] => {}
                [x] => write!(f, "{before}{x}")?,
                [x, ..] => write!(f, "{before}{x}*{}", run.len())?,
            }
        }
        Ok(())
    }
}

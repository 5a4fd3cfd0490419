// Answers as the boundary tells them: structs of numbers, with no Option or Result in them, since C takes them by
// value. Each but `ToldAnswer`, whose call refuses nothing, has the refusal's number and its place first, 0 and 0 where
// the call is taken, and then the fields of the answer; `From` makes each from the answer that it tells. One level's
// stretch, of which nothing is refused either, is words::Stretch.
#![tactic(auto)]

pub mod columns;
pub mod records;
pub mod tables;

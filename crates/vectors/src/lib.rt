// What the programs that replay stored cases share: reading numbers, building the bytes of a case, comparing
// the bytes that it lends, and telling how many cases differ.

#![tactic(auto)]

pub mod cases;
pub mod compared;
pub mod input;
pub mod runs;
pub mod words;

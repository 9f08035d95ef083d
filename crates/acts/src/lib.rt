// What is done with a row, decided from its words, its place and what stands right below it.

#![tactic(auto)]

pub mod act;
pub mod context;
pub mod switches;

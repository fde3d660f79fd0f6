// Whole calls run over a course against the model gauge: one byte of the course for each transfer.
#![tactic(auto)]

pub mod course;
pub mod run;

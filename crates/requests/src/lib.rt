// What the lines of the bench program say: a request line, and an outcome line. Both are read as bytes, from their digits; a retired kind is known before
// that, by the first two characters.
#![tactic(auto)]

pub mod fields;
pub mod outcome;
pub mod request;

// Standard input, chunk by chunk, and what is told on standard error.
#![tactic(auto)]

ghost use Rattle.chunks.specs.Brings.{Brings};

use std::io::Read;
use std::{io, str};

// What a read brought.
// Stays: a Result round an Option would be no plainer: its callers tell these three apart in one match.
#[derive(Clone, Copy, Debug, PartialEq, Eq)]
pub enum Brought {
    // So many bytes of the next chunk.
    Bytes(usize),
    // The end of the input.
    End,
    // An error, which was told on standard error.
    Failed,
}

// Reads the next chunk. An error is told after the name that the caller has for its input, where that is text.
// Stays: `read` takes any bytes as a name; a `&str` would ask more of its callers.
pub fn read<R: Input + Eprint + Alloc>(rt: &R, chunk: &mut [u8], name: &[u8]) -> Brought
    ensures { Brings result chunk.new }
{
    match rt.reader().read(chunk) {
        Ok(0) => Brought::End,
        Ok(n) => Brought::Bytes(n),
        Err(error) => {
            tell(rt, str::from_utf8(name).unwrap_or("standard input"), error);
            Brought::Failed
        }
    }
}

// Tells on standard error what failed, as the caller names it, and why. Where that cannot be told either, nothing is.
pub fn tell<R: Eprint + Alloc>(rt: &R, name: &str, error: io::Error) {
    let _ = match error.to_string(rt.alloc()) {
        Ok(text) => rt.eprintln(format_args!("{name}: {}", reason(text.as_str()))),
        Err(_) => rt.eprintln(format_args!("{name}: {error}")),
    };
}

// An error's text without the number that the system has for it.
fn reason(text: &str) -> &str {
    text.split_once(" (os error ")
        .map_or(text, |(front, _)| front)
}

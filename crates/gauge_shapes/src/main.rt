// The model gauge by itself, on frames and reads of every shape. A row for a count byte has frames with it at both ends of the window, from one byte too few to three bytes beyond what is
// counted, with a right PEC there and a wrong one, each by every fate and with the pointer at four addresses: what the host hears, how often the flash changed where no block belongs, and a
// digest of outcomes, pointers and both ends of the flash. A row for a pointer has reads of 0 to 40 bytes by every fate, and a digest of outcomes, pointers and replies.
// The file `stdout` comes from tests/gauge_shapes.py, a program of its own that goes by document 01.
#![tactic(auto)]

mod frames;
mod reads;
mod seen;

use fixture::flash;
use fixture::untold::Untold;
use model_gauge::gauge::FLASH_BYTES;
use std::io;

// Frames and then reads.
fn all(rt: &impl Print) -> io::Result<()> {
    let mut old = [0u8; FLASH_BYTES];
    flash::fill(&mut old);
    frames::all(rt, &old)?;
    reads::all(rt, &old)
}

fn main(rt: HostRuntime) {
    let _ = all(&Untold(&rt));
}

// Runs data-flash writes and reads against the model gauge over one course with losses: from starts that are not aligned to a block, that go from one
// page of 256 addresses to the next, that end at the last address, and that the window refuses. A line has the answer and its detail, the waits, the
// transfers, the gauge's pointer, and digests of the flash and of a read's buffer. The file `stdout` comes from tests/gauge_starts.py, a program of its own
// that goes by document 01.
#![tactic(auto)]

mod runs;
mod say;

use fixture::flash;
use fixture::untold::Untold;
use model_gauge::gauge::FLASH_BYTES;
use std::io;

// Starts, and how many bytes go from there.
const STARTS: [(u16, usize); 18] = [
    // At the first addresses, and with nothing to move.
    (0x4000, 0),
    (0xFFFF, 0),
    (0x4000, 1),
    (0x4000, 70),
    (0x4001, 70),
    (0x401F, 33),
    // From one page to the next: inside a block, between two, and with a last block of one byte.
    (0x40F0, 70),
    (0x40FF, 33),
    (0x41C0, 65),
    (0x4FC1, 64),
    // Up to the last address.
    (0x5FBA, 70),
    (0x5FE0, 32),
    (0x5FFF, 1),
    // Outside.
    (0x5FBB, 70),
    (0x5FFF, 2),
    (0x6000, 1),
    (0x3FFF, 1),
    (0xFFFF, 2),
];

// Both calls from each start, without a PEC and with it.
fn all(rt: &impl Print) -> io::Result<()> {
    let mut old = [0u8; FLASH_BYTES];
    flash::fill(&mut old);
    for (address, length) in STARTS {
        runs::write(rt, address, length, false, &old)?;
        runs::write(rt, address, length, true, &old)?;
        runs::read(rt, address, length, false, &old)?;
        runs::read(rt, address, length, true, &old)?;
    }
    Ok(())
}

fn main(rt: HostRuntime) {
    let _ = all(&Untold(&rt));
}

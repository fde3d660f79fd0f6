// Runs a data-flash read of three blocks against the model gauge over every course of up to seven transfers, with a PEC and without, and with 0 to 2
// retries. Each run that stops is gone on with over a heard course, by the same gauge: a cut call itself, an error by a second call. A line for each
// setting has the runs, how they ended, how many buffers in the end had the flash's bytes, and two digests: of ends, waits, transfers, pointers and buffers where
// the runs stopped, and of pointers and buffers in the end. The file `stdout` comes from tests/gauge_reads.py, a program of its own that goes by
// document 01.
#![tactic(auto)]

mod runs;
mod seen;

use fixture::flash;
use fixture::untold::Untold;
use model_gauge::gauge::FLASH_BYTES;
use std::io;

// The line of each setting.
fn all(rt: &impl Print) -> io::Result<()> {
    let mut old = [0u8; FLASH_BYTES];
    flash::fill(&mut old);
    for retries in 0..3u16 {
        runs::setting(rt, retries, false, &old)?;
        runs::setting(rt, retries, true, &old)?;
    }
    Ok(())
}

fn main(rt: HostRuntime) {
    let _ = all(&Untold(&rt));
}

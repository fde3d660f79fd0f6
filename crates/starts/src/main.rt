// Starts each call on each side of its limits, with nothing to move, and with a work buffer of 38 bytes, and says which answer it has at once, or that it waits. Of a call that waits the
// first transfers follow: frames in square brackets and hexadecimal, as each is acknowledged, and the first read as command?count. Beside them, the figures of the charging voltage override, the settings of `Config::new`, the gauge's address and a wait.
#![tactic(auto)]

mod figures;
mod rows;
mod say;

use fixture::untold::Untold;
use std::io;

// The rows, and then the figures.
fn all(rt: &impl Print) -> io::Result<()> {
    rows::all(rt)?;
    figures::voltages(rt)?;
    figures::settings(rt)?;
    figures::bus(rt)
}

fn main(rt: HostRuntime) {
    let _ = all(&Untold(&rt));
}

// Drives each call by hand: through success, retries, each failure and each refusal of a step (those of a start: program `starts`). A line has the script, what each of its
// marks is shown, then the answer's number, its detail and the waits (of a reading call the buffer too). A frame is shown in hexadecimal, a read as command?count, an ended call as a
// dash and its answer, a refused showing as ! and its number; the number of a refused report follows in brackets.
#![tactic(auto)]

mod marks;
mod rows;
mod run;
mod say;

use fixture::untold::Untold;

fn main(rt: HostRuntime) {
    let _ = rows::all(&Untold(&rt));
}

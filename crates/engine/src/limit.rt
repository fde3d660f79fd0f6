// How a call is admitted: the refusals of the start, in the order 8, 4, 5, 7.
ghost use Rattle.std.specs.Prelude.{◌≡◌};
ghost use Rattle.engine.specs.Limit.{windowed, commanded, measured, admitted};

use crate::bus::Phase;
use protocol::consts::{LARGEST_CMD_SIZE_BYTES, LEAST_WORK_BUFFER};
use protocol::error::Answer;
use protocol::window;

// What a call asks of the length of the payload or buffer that is lent.
#[derive(Clone, Copy, Debug, PartialEq, Eq)]
pub enum Limit {
    // Nothing.
    Free,
    // At most so many bytes.
    AtMost(usize),
    // Exactly so many bytes.
    Exactly(usize),
    // A transfer inside the data-flash window.
    Window,
    // A command's output, beside an input of so many bytes.
    Command(usize),
}

// A data-flash transfer: outside the window it is refused, and an empty one is done at once.
fn windowed(address: u16, length: usize) -> Phase
    ensures { result ≡ windowed address length }
{
    if window::check_df_range(address, length) {
        if length == 0 {
            Phase::Ended(Answer::Done)
        } else {
            Phase::Waiting
        }
    } else {
        Phase::Ended(Answer::DataFlashAddressOutOfRange)
    }
}

// A command: neither input nor output is too large, and there is no input.
fn commanded(input: usize, output: usize) -> Phase
    ensures { result ≡ commanded input output }
{
    if LARGEST_CMD_SIZE_BYTES < input {
        return Phase::Ended(Answer::DataTooLarge);
    }
    if LARGEST_CMD_SIZE_BYTES < output {
        return Phase::Ended(Answer::DataTooLarge);
    }
    if input == 0 {
        Phase::Waiting
    } else {
        Phase::Ended(Answer::NotACommand)
    }
}

impl Limit {
    // What a length comes to; where there is a window, the transfer begins at this address.
    fn measure(self, start: u16, length: usize) -> Phase
        ensures { result ≡ measured self start length }
    {
        match self {
            Limit::Free => Phase::Waiting,
            Limit::AtMost(most) => {
                if most < length {
                    Phase::Ended(Answer::DataTooLarge)
                } else {
                    Phase::Waiting
                }
            }
            Limit::Exactly(size) => {
                if length == size {
                    Phase::Waiting
                } else {
                    Phase::Ended(Answer::WrongBuffer)
                }
            }
            Limit::Window => windowed(start, length),
            Limit::Command(input) => commanded(input, length),
        }
    }

    // A call with so many lent bytes and such a work buffer waits, is done at once, or is refused; where there is a window, it begins at this address.
    pub fn admit(self, start: u16, length: usize, work: usize) -> Phase
        ensures { result ≡ admitted self start length work }
    {
        if work < LEAST_WORK_BUFFER {
            Phase::Ended(Answer::WrongBuffer)
        } else {
            self.measure(start, length)
        }
    }
}

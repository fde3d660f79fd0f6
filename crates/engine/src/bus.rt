// What passes between a call and the bus.
ghost use Rattle.std.specs.Prelude.{◌≡◌};
ghost use Rattle.engine.specs.Bus.{write_of, sent_by, phase_after, fits_of};

use protocol::error::Answer;

// What the bus made of a transfer.
#[derive(Clone, Copy, Debug, PartialEq, Eq)]
pub enum Outcome {
    // Acknowledged; of a read, the reply is lent beside it.
    Acknowledged,
    // A bus error with its code.
    BusError(u8),
    // No answer in time.
    Timeout,
}

// What a call shows.
#[derive(Clone, Copy, Debug, PartialEq, Eq)]
pub enum Transfer {
    // A write of so many bytes, which `to_send` hands out.
    Write(usize),
    // A write of one command byte followed by a read of so many bytes.
    Read(u8, usize),
    // Nothing: the lent buffers are not those of the start, or the frame has no room, and the call still waits.
    Refused(Answer),
    // Nothing more: the call has ended, or was refused at its start.
    Ended(Answer),
}

// What came of a report: the new call, or why it was refused and the call as it was.
pub type Reported<C> = Result<C, (Answer, C)>;

// Where a call stands.
// Stays: an enum of its own, since `None` and `Some` would not say that a call waits or has ended.
#[derive(Clone, Copy, Debug, PartialEq, Eq)]
pub enum Phase {
    Waiting,
    Ended(Answer),
}

impl Transfer {
    // A frame that was laid is to be sent; one that has no room is refused.
    pub fn write(laid: Option<usize>) -> Transfer
        ensures { result ≡ write_of laid }
    {
        match laid {
            Some(n) => Transfer::Write(n),
            None => Transfer::Refused(Answer::WrongBuffer),
        }
    }

    // How many bytes it sends: none where it is no write.
    pub fn sent(self) -> usize
        ensures { result ≡ sent_by self }
    {
        match self {
            Transfer::Write(n) => n,
            _ => 0,
        }
    }
}

impl Phase {
    // Where a call of so many steps stands that has made `made` of them.
    pub fn after(steps: usize, made: u32) -> Phase
        ensures { result ≡ phase_after steps made }
    {
        if steps <= made as usize {
            Phase::Ended(Answer::Done)
        } else {
            Phase::Waiting
        }
    }
}

// The lengths of what was lent at the start: payload or buffer, and work buffer.
#[derive(Clone, Copy, Debug, PartialEq, Eq)]
pub struct Lent {
    pub length: usize,
    pub work: usize,
}

impl Lent {
    // Whether the same lengths are lent again.
    pub fn fits(self, length: usize, work: usize) -> bool
        ensures { result ≡ fits_of self length work }
    {
        length == self.length && work == self.work
    }
}

// What does not change while a call runs: its plan, and the lengths of what was lent at the start.
#[derive(Clone, Copy, Debug, PartialEq, Eq)]
pub struct Task<P> {
    pub plan: P,
    pub lent: Lent,
}

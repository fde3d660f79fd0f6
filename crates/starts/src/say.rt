// What is printed of a start.
use engine::bus::{Phase, Transfer};
use fixture::digits::Digits;
use std::fmt;

// What a call is lent, and whether it has a PEC: n bytes of payload or buffer, and a work buffer.
#[derive(Clone, Copy, Debug, PartialEq, Eq)]
pub(crate) struct Lent {
    pub(crate) n: usize,
    pub(crate) work: usize,
    pub(crate) pec: bool,
}

// The length, a work buffer that is not of 39 bytes, and whether there is no PEC.
impl fmt::Display for Lent {
    fn fmt<W: fmt::Write>(&self, f: &mut fmt::Formatter<W>) -> fmt::Result {
        write!(f, "{}", self.n)?;
        if self.work != 39 {
            write!(f, ", work {}", self.work)?;
        }
        if !self.pec {
            write!(f, " without PEC")?;
        }
        Ok(())
    }
}

// How a call stands at its start.
#[derive(Clone, Copy, Debug, PartialEq, Eq)]
pub(crate) struct Stand(pub(crate) Phase);

impl fmt::Display for Stand {
    fn fmt<W: fmt::Write>(&self, f: &mut fmt::Formatter<W>) -> fmt::Result {
        match self.0 {
            Phase::Waiting => write!(f, "waits"),
            Phase::Ended(answer) => write!(f, "{}", answer.number()),
        }
    }
}

// A transfer and the frame that it sends; nothing of a call that has ended.
#[derive(Clone, Copy, Debug, PartialEq, Eq)]
pub(crate) struct Shown<'a> {
    pub(crate) transfer: Transfer,
    pub(crate) frame: &'a [u8],
}

impl fmt::Display for Shown<'_> {
    fn fmt<W: fmt::Write>(&self, f: &mut fmt::Formatter<W>) -> fmt::Result {
        match self.transfer {
            Transfer::Write(_) => write!(f, " [{}]", Digits(self.frame)),
            Transfer::Read(command, count) => write!(f, " {command:02x}?{count}"),
            Transfer::Refused(_) => write!(f, " !"),
            Transfer::Ended(_) => Ok(()),
        }
    }
}

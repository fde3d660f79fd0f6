// What is printed.
use calls::call::Call;
use engine::bus::{Phase, Transfer};
use fixture::digits::Digits;
use std::fmt;

// A transfer: the frame that it sends, a read's command and the number of bytes asked, the answer of an ended call after a dash, or after ! why the showing is refused.
#[derive(Clone, Copy, Debug, PartialEq, Eq)]
pub(crate) struct Shown<'a> {
    pub(crate) transfer: Transfer,
    pub(crate) frame: &'a [u8],
}

// Stays: other words than those of `starts` for the same transfers.
impl fmt::Display for Shown<'_> {
    fn fmt<W: fmt::Write>(&self, f: &mut fmt::Formatter<W>) -> fmt::Result {
        match self.transfer {
            Transfer::Write(_) => write!(f, "{}", Digits(self.frame)),
            Transfer::Read(command, count) => write!(f, "{command:02x}?{count}"),
            Transfer::Refused(a) => write!(f, "!{}", a.number()),
            Transfer::Ended(a) => write!(f, "-{}", a.number()),
        }
    }
}

// How a call stands: its answer with the detail, or that it waits; and its waits.
#[derive(Clone, Copy, Debug, PartialEq, Eq)]
pub(crate) struct Stand(pub(crate) Call);

impl fmt::Display for Stand {
    fn fmt<W: fmt::Write>(&self, f: &mut fmt::Formatter<W>) -> fmt::Result {
        match self.0.phase() {
            Phase::Waiting => write!(f, "waits")?,
            Phase::Ended(a) => write!(f, "{} {}", a.number(), a.detail())?,
        }
        write!(f, " {}", self.0.tally().waits)
    }
}

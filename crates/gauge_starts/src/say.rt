// What is printed of a run.
use courses::course::End;
use courses::run::Run;
use std::fmt;

// How a run ended, the waits, the transfers, and where the gauge then reads.
#[derive(Clone, Copy, Debug, PartialEq, Eq)]
pub(crate) struct Left(pub(crate) Run);

impl fmt::Display for Left {
    fn fmt<W: fmt::Write>(&self, f: &mut fmt::Formatter<W>) -> fmt::Result {
        let link = self.0.link;
        let tally = link.call.tally();
        match self.0.end {
            End::Cut => write!(f, "cut")?,
            End::Answered(answer) => {
                write!(f, "answer {} detail {}", answer.number(), answer.detail())?;
            }
        }
        write!(f, " waits {} transfers {}", tally.waits, tally.transfers)?;
        write!(f, " pointer {:04x}", link.gauge.pointer)
    }
}

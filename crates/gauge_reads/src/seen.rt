// How runs ended and what they left, and its line.
use courses::course::End;
use courses::run::{Link, Run};
use fixture::counted::one_more;
use fixture::digest;
use protocol::error::Answer;
use std::fmt;

// How many runs ended how, how many buffers had the flash's bytes in the end, and digests of what stood where the runs stopped and in the end.
#[derive(Clone, Copy, Default)]
pub(crate) struct Seen {
    runs: u32,
    cuts: u32,
    done: u32,
    timeouts: u32,
    others: u32,
    whole: u32,
    stops: u64,
    ends: u64,
}

// A run's end as a number of its digest: the answer's, or 255 for a run that was cut.
fn number(end: End) -> u8 {
    match end {
        End::Cut => 255,
        End::Answered(answer) => answer.number(),
    }
}

impl Seen {
    // One run more, which ended so.
    // Stays: an arm for each end that has a count of its own, and one for the rest.
    fn ended(&mut self, end: End) {
        one_more(&mut self.runs);
        match end {
            End::Cut => one_more(&mut self.cuts),
            End::Answered(Answer::Done) => one_more(&mut self.done),
            End::Answered(Answer::Timeout) => one_more(&mut self.timeouts),
            End::Answered(_) => one_more(&mut self.others),
        }
    }

    // One run more, and what it left in the buffer.
    pub(crate) fn stopped(&mut self, run: Run, buffer: &[u8]) {
        let tally = run.link.call.tally();
        self.ended(run.end);
        for n in [
            u64::from(number(run.end)),
            u64::from(tally.waits),
            u64::from(tally.transfers),
            u64::from(run.link.gauge.pointer),
        ] {
            self.stops = digest::number(self.stops, n);
        }
        self.stops = digest::bytes(self.stops, buffer);
    }

    // What a run left once it was gone on with; whether the buffer had the flash's bytes.
    pub(crate) fn over(&mut self, link: Link, buffer: &[u8], whole: bool) {
        let pointed = digest::number(self.ends, u64::from(link.gauge.pointer));
        self.ends = digest::bytes(pointed, buffer);
        if whole {
            one_more(&mut self.whole);
        }
    }
}

// Stays: other counts than those of `gauge_courses`.
impl fmt::Display for Seen {
    fn fmt<W: fmt::Write>(&self, f: &mut fmt::Formatter<W>) -> fmt::Result {
        write!(
            f,
            "runs {} cuts {} done {}",
            self.runs, self.cuts, self.done
        )?;
        write!(f, " timeouts {} others {}", self.timeouts, self.others)?;
        write!(f, " whole {}", self.whole)?;
        write!(f, " stops {:08x} ends {:08x}", self.stops, self.ends)
    }
}

// What was seen of the gauge, and its part of a line.
use engine::bus::Outcome;
use fixture::counted::one_more;
use fixture::digest;
use model_gauge::gauge::{Effect, Fate};
use std::fmt;

// What becomes of a transfer.
pub(crate) const FATES: [Fate; 3] = [Fate::Heard, Fate::LostBefore, Fate::LostAfter];

// Where the gauge's pointer stands.
pub(crate) const POINTERS: [u16; 4] = [0x4000, 0x5FE0, 0x5FFF, 0x6000];

// How often the host heard what, how often the flash changed where no block belongs, and a digest of it all.
#[derive(Clone, Copy, Default)]
pub(crate) struct Seen {
    acknowledged: u32,
    bus_errors: u32,
    timeouts: u32,
    pub(crate) strays: u32,
    digest: u64,
}

impl Seen {
    // A number more.
    fn number(&mut self, n: u64) {
        self.digest = digest::number(self.digest, n);
    }

    // Some bytes more.
    pub(crate) fn bytes(&mut self, s: &[u8]) {
        self.digest = digest::bytes(self.digest, s);
    }

    // One outcome more: a bus error's code that is not 0 counts as another outcome.
    // Stays: an arm for each outcome that is counted: the match shows that none is missing, which a table of functions would not.
    fn outcome(&mut self, outcome: Outcome) {
        match outcome {
            Outcome::Acknowledged => {
                one_more(&mut self.acknowledged);
                self.number(0);
            }
            Outcome::BusError(code) => {
                one_more(&mut self.bus_errors);
                self.number(1 + u64::from(code) * 3);
            }
            Outcome::Timeout => {
                one_more(&mut self.timeouts);
                self.number(2);
            }
        }
    }

    // One transfer more: what the host heard of it, and the gauge after it.
    pub(crate) fn transfer(&mut self, effect: Effect) {
        self.outcome(effect.outcome);
        self.number(u64::from(effect.gauge.pointer));
    }

    // A part of the flash that no block belongs to, as it was or not.
    pub(crate) fn kept(&mut self, same: bool) {
        if !same {
            one_more(&mut self.strays);
        }
    }
}

// What was heard and the digest.
impl fmt::Display for Seen {
    fn fmt<W: fmt::Write>(&self, f: &mut fmt::Formatter<W>) -> fmt::Result {
        write!(
            f,
            "acknowledged {} bus errors {}",
            self.acknowledged, self.bus_errors
        )?;
        write!(f, " timeouts {} digest {:08x}", self.timeouts, self.digest)
    }
}

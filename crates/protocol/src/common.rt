// The settings of a call. (common.rs)
ghost use Rattle.std.specs.Prelude.{◌≡◌};
ghost use Rattle.protocol.specs.Common.{default_config, retries_on, pec_on};

use crate::consts::DEFAULT_BUS_RETRIES;

// The side of the settings that a call goes by, with all its frames.
#[derive(Clone, Copy, Debug, PartialEq, Eq)]
pub enum Side {
    // What writes, and reads nothing.
    Write,
    // What reads, its command or its address frame included.
    Read,
}

// What the driver is set to: on each side the retries after a failed attempt and whether a PEC is carried, and whether the waits between attempts grow.
#[derive(Clone, Copy, Debug, PartialEq, Eq)]
pub struct Config {
    pub max_write_retries: u16,
    pub max_read_retries: u16,
    pub pec_write: bool,
    pub pec_read: bool,
    pub growing_waits: bool,
}

impl Config {
    // The settings that a driver starts with: three retries on either side, no PEC, waits of one length.
    pub fn new() -> Config
        ensures { result ≡ default_config }
    {
        Config {
            max_write_retries: DEFAULT_BUS_RETRIES,
            max_read_retries: DEFAULT_BUS_RETRIES,
            pec_write: false,
            pec_read: false,
            growing_waits: false,
        }
    }

    // The retries of a call on this side: the one place that chooses between the two budgets.
    pub fn retries(self, side: Side) -> u16
        ensures { result ≡ retries_on self side }
    {
        match side {
            Side::Write => self.max_write_retries,
            Side::Read => self.max_read_retries,
        }
    }

    // Whether the frames of a call on this side carry a PEC.
    // Stays: two settings of a side; a function that gave both would need a type for the pair.
    pub fn pec(self, side: Side) -> bool
        ensures { result ≡ pec_on self side }
    {
        match side {
            Side::Write => self.pec_write,
            Side::Read => self.pec_read,
        }
    }
}

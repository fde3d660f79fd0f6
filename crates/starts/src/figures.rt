// The figures of the charging voltage override, the settings that a driver starts with, and the two numbers that a host needs beside them.
use protocol::common::Config;
use protocol::consts::{BQ_ADDR, DEFAULT_ERROR_BACKOFF_DELAY_MS};
use r5::voltage::ChargingVoltageOverride;
use std::{fmt, io};

// A figure in millivolts, of those that are looked at.
#[derive(Clone, Copy, Debug, PartialEq, Eq)]
struct Figure(i16);

impl fmt::Display for Figure {
    fn fmt<W: fmt::Write>(&self, f: &mut fmt::Formatter<W>) -> fmt::Result {
        match self.0 {
            -1 | -32768 | 32767 | 256 => write!(f, "{}", self.0),
            _ => write!(f, "other"),
        }
    }
}

// The settings that a driver starts with, as the Rust's are printed by oracle/, where one number is both budgets.
pub(crate) fn settings(rt: &impl Print) -> io::Result<()> {
    let config = Config::new();
    let writes = config.max_write_retries;
    let reads = config.max_read_retries;
    print!(rt; "Config::new : retries {writes} and {reads}")?;
    print!(rt; ", pec_write {}", config.pec_write as u8)?;
    println!(rt; ", pec_read {}", config.pec_read as u8)
}

// The gauge's address on the bus, and the milliseconds of a wait.
pub(crate) fn bus(rt: &impl Print) -> io::Result<()> {
    println!(rt; "bus : address {BQ_ADDR:02x}, wait {DEFAULT_ERROR_BACKOFF_DELAY_MS}")
}

// Ten bytes, their five figures, and the bytes of those.
pub(crate) fn voltages(rt: &impl Print) -> io::Result<()> {
    let v = ChargingVoltageOverride::from_bytes(b"\xFF\xFF\x00\x80\xFF\x7F\x00\x01\x01\x00");
    print!(rt; "FFFF0080FF7F00010100 :")?;
    for figure in [
        v.low_temp_chrg_mv,
        v.std_low_temp_chrg_mv,
        v.std_hi_temp_chrg_mv,
        v.hi_temp_chrg_mv,
        v.recommended_temp_chrg_mv,
    ] {
        print!(rt; " {}", Figure(figure))?;
    }
    print!(rt; " ")?;
    for byte in v.to_bytes() {
        print!(rt; "{byte:02X}")?;
    }
    println!(rt)
}

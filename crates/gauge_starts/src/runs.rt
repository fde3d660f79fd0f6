// Writes and reads over the course, and their lines.
use crate::say::Left;
use calls::call::Call;
use calls::kind::Kind;
use courses::run::{Link, Run};
use fixture::digest;
use fixture::flash::PAYLOAD;
use fixture::settings::settings;
use model_gauge::gauge::{FLASH_BYTES, Gauge};
use protocol::bytes;
use std::io;

// Losses before the gauge acts and after, and then enough transfers that are heard.
const COURSE: [u8; 12] = [1, 0, 2, 0, 0, 1, 0, 0, 0, 0, 0, 0];

// A call over the course, with as many retries as the course has losses.
fn run(kind: Kind, pec: bool, payload: &[u8], buffer: &mut [u8], flash: &mut [u8]) -> Run {
    let mut work = [0u8; 39];
    let link = Link {
        call: Call::start(kind, settings(3, pec), payload, buffer, &work),
        gauge: Gauge::new(),
    };
    link.run(payload, buffer, &mut work, flash, &COURSE)
}

// The line of a write.
pub(crate) fn write(
    rt: &impl Print,
    address: u16,
    length: usize,
    pec: bool,
    old: &[u8; FLASH_BYTES],
) -> io::Result<()> {
    let mut flash = *old;
    let payload = bytes::front(&PAYLOAD, length);
    let kind = Kind::WriteDataflash(address);
    let left = Left(run(kind, pec, payload, &mut [], &mut flash));
    print!(rt; "write {address:04x} {length} pec {}: {left}", pec as u8)?;
    println!(rt; " flash {:08x}", digest::bytes(0, &flash))
}

// The line of a read, of at most 70 bytes.
pub(crate) fn read(
    rt: &impl Print,
    address: u16,
    length: usize,
    pec: bool,
    old: &[u8; FLASH_BYTES],
) -> io::Result<()> {
    let mut flash = *old;
    let mut buffer = [0xA5u8; 70];
    let n = length.min(70);
    let kind = Kind::ReadDataflash(address);
    let left = Left(run(kind, pec, b"", &mut buffer[..n], &mut flash));
    print!(rt; "read {address:04x} {length} pec {}: {left}", pec as u8)?;
    print!(rt; " flash {:08x}", digest::bytes(0, &flash))?;
    println!(rt; " buffer {:08x}", digest::bytes(0, &buffer))
}

// The read over courses.
use crate::seen::Seen;
use calls::call::Call;
use calls::kind::Kind;
use courses::course::End;
use courses::run::{Link, Run};
use fixture::course;
use fixture::course::HEARD;
use fixture::settings::settings;
use model_gauge::gauge::{FLASH_BYTES, Gauge};
use protocol::common::Config;
use protocol::error::Answer;
use std::io;

// The blocks go from one page of 256 addresses to the next.
const ADDRESS: u16 = 0x50F0;

// Where the flash has the byte of that address.
const PLACE: usize = 0x10F0;

const LENGTH: usize = 70;

// A read from this gauge, over a course. It looks at no payload.
fn read(
    config: Config,
    gauge: Gauge,
    buffer: &mut [u8],
    work: &mut [u8],
    flash: &mut [u8],
    course: &[u8],
) -> Run {
    let call = Call::start(Kind::ReadDataflash(ADDRESS), config, b"", buffer, work);
    let link = Link { call, gauge };
    link.run(b"", buffer, work, flash, course)
}

// A run that stopped is gone on with.
fn go_on(config: Config, run: Run, buffer: &mut [u8], work: &mut [u8], flash: &mut [u8]) -> Link {
    match run.end {
        End::Cut => run.link.run(b"", buffer, work, flash, &HEARD).link,
        End::Answered(Answer::Done) => run.link,
        End::Answered(_) => read(config, run.link.gauge, buffer, work, flash, &HEARD).link,
    }
}

// The read over one course, gone on with where it stopped. A buffer is whole where it has the flash's bytes, and the flash is as it was.
fn run(config: Config, course: &[u8], old: &[u8; FLASH_BYTES], seen: &mut Seen) {
    let mut flash = *old;
    let mut buffer = [0xA5u8; LENGTH];
    let mut work = [0u8; 39];
    let gauge = Gauge::new();
    let run = read(config, gauge, &mut buffer, &mut work, &mut flash, course);
    seen.stopped(run, &buffer);
    let link = go_on(config, run, &mut buffer, &mut work, &mut flash);
    let whole = flash == *old && buffer[..] == old[PLACE..PLACE + LENGTH];
    seen.over(link, &buffer, whole);
}

// Every course of up to seven transfers at one setting, and its line.
pub(crate) fn setting(
    rt: &impl Print,
    retries: u16,
    pec: bool,
    old: &[u8; FLASH_BYTES],
) -> io::Result<()> {
    let config = Config {
        max_write_retries: 9, // which no read looks at
        pec_write: false,
        ..settings(retries, pec)
    };
    let mut seen = Seen::default();
    course::each(|course| run(config, course, old, &mut seen));
    println!(rt; "retries {retries} pec {}: {seen}", pec as u8)
}

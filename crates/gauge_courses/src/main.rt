// Runs a data-flash write of three blocks against the model gauge over every course of up to seven transfers, with a PEC and without, and with 0 to 2
// retries. Each run that stops is gone on with: a cut call over a heard course, an error by a second call with the bytes past its count. A line for
// each setting has the runs, how they ended, at how many stops the block that is due was all old, at how many all new and at how many of these the
// course has no 2, and how many flashes in the end had the payload over the old bytes and no other change. What a flash is compared with is laid
// without the gauge. The file `stdout` comes from tests/gauge_courses.py, a program of its own that goes by document 01.
#![tactic(auto)]

use calls::call::Call;
use calls::kind::Kind;
use courses::course::End;
use courses::run::{Link, Run};
use fixture::counted::one_more;
use fixture::course::HEARD;
use fixture::flash::PAYLOAD;
use fixture::settings::settings;
use fixture::untold::Untold;
use fixture::{course, flash};
use model_gauge::gauge::{FLASH_BYTES, Gauge};
use protocol::bytes;
use protocol::common::Config;
use protocol::error::Answer;
use std::{fmt, io};

const ADDRESS: u16 = 0x5000;

// Where the flash has the byte of that address.
const PLACE: usize = 0x1000;

// How runs ended, what they left, and what was left once they were gone on with.
#[derive(Clone, Copy, Default)]
struct Counts {
    runs: u32,
    cuts: u32,
    done: u32,
    bus_errors: u32,
    timeouts: u32,
    partial: u32,
    others: u32,
    next_old: u32,
    next_new: u32,
    new_without: u32,
    clean: u32,
}

impl Counts {
    // One run more, which ended so.
    // Stays: an arm for each end that has a count of its own, and one for the rest.
    fn ended(&mut self, end: End) {
        one_more(&mut self.runs);
        match end {
            End::Cut => one_more(&mut self.cuts),
            End::Answered(Answer::Done) => one_more(&mut self.done),
            End::Answered(Answer::I2c(_)) => one_more(&mut self.bus_errors),
            End::Answered(Answer::Timeout) => one_more(&mut self.timeouts),
            End::Answered(Answer::PartialDataFlashWrite { .. }) => one_more(&mut self.partial),
            End::Answered(_) => one_more(&mut self.others),
        }
    }

    // One stop more, at which the block that is due is all old, all new or neither, after a course with a 2 in it or none.
    fn stopped(&mut self, old: bool, new: bool, none_after: bool) {
        if old {
            one_more(&mut self.next_old);
        }
        if new {
            one_more(&mut self.next_new);
        }
        if new && none_after {
            one_more(&mut self.new_without);
        }
    }

    // One flash more that is as the clean write leaves it, or not.
    fn compared(&mut self, equal: bool) {
        if equal {
            one_more(&mut self.clean);
        }
    }
}

impl fmt::Display for Counts {
    fn fmt<W: fmt::Write>(&self, f: &mut fmt::Formatter<W>) -> fmt::Result {
        write!(
            f,
            "runs {} cuts {} done {}",
            self.runs, self.cuts, self.done
        )?;
        write!(
            f,
            " bus errors {} timeouts {}",
            self.bus_errors, self.timeouts
        )?;
        write!(f, " partial {} others {}", self.partial, self.others)?;
        write!(f, " next old {} next new {}", self.next_old, self.next_new)?;
        write!(
            f,
            " new without a 2 {} clean {}",
            self.new_without, self.clean
        )
    }
}

// The old flash with the first n bytes of the payload over it, laid there without the gauge.
// Stays: how much of the payload is laid is what is compared.
fn laid(old: &[u8; FLASH_BYTES], n: usize) -> [u8; FLASH_BYTES] {
    let mut flash = *old;
    bytes::store_block(&mut flash, PLACE, bytes::front(&PAYLOAD, n), n);
    flash
}

// A write of some bytes, over a course. It looks at no buffer.
// Stays: what is lent belongs to the caller, who looks at it after the run.
fn write(
    config: Config,
    address: u16,
    payload: &[u8],
    work: &mut [u8],
    flash: &mut [u8],
    course: &[u8],
) -> Run {
    let kind = Kind::WriteDataflash(address);
    let link = Link {
        call: Call::start(kind, config, payload, &[], work),
        gauge: Gauge::new(),
    };
    link.run(payload, &mut [], work, flash, course)
}

// A call with the bytes past the first `past`, over a heard course.
fn send(config: Config, past: usize, flash: &mut [u8], work: &mut [u8]) {
    let sent = past.min(PAYLOAD.len());
    let address = ADDRESS + sent as u16;
    write(config, address, &PAYLOAD[sent..], work, flash, &HEARD);
}

// The bytes that an answer says were acknowledged; none given means zero.
fn committed_of(answer: Answer) -> usize {
    match answer {
        Answer::PartialDataFlashWrite { committed } => committed,
        _ => 0,
    }
}

// How many transfers of a course have this byte.
fn count(course: &[u8], byte: u8) -> usize {
    course.iter().filter(|b| **b == byte).count()
}

// The bytes of the blocks that were acknowledged before a run stopped: where it was cut, one for each transfer that was heard.
fn acknowledged(end: End, course: &[u8]) -> usize {
    match end {
        End::Cut => count(course, 0).min(3) * 32,
        End::Answered(answer) => committed_of(answer),
    }
}

// What stands where the block that is due goes, where a run stopped before its call had ended well.
fn at_stop(
    end: End,
    course: &[u8],
    flash: &[u8; FLASH_BYTES],
    old: &[u8; FLASH_BYTES],
    counts: &mut Counts,
) {
    if !matches!(end, End::Answered(Answer::Done)) {
        let n = acknowledged(end, course).min(70);
        let new = *flash == laid(old, n + 32);
        counts.stopped(*flash == laid(old, n), new, count(course, 2) == 0);
    }
}

// A run that stopped is gone on with.
fn go_on(config: Config, run: Run, flash: &mut [u8], work: &mut [u8]) {
    match run.end {
        End::Cut => {
            run.link.run(&PAYLOAD, &mut [], work, flash, &HEARD);
        }
        End::Answered(Answer::Done) => {}
        End::Answered(answer) => send(config, committed_of(answer), flash, work),
    }
}

// The write over one course, gone on with where it stopped.
fn run(
    config: Config,
    course: &[u8],
    old: &[u8; FLASH_BYTES],
    clean: &[u8; FLASH_BYTES],
    counts: &mut Counts,
) {
    let mut flash = *old;
    let mut work = [0u8; 39];
    let run = write(config, ADDRESS, &PAYLOAD, &mut work, &mut flash, course);
    at_stop(run.end, course, &flash, old, counts);
    go_on(config, run, &mut flash, &mut work);
    counts.ended(run.end);
    counts.compared(flash == *clean);
}

// Every course of up to seven transfers at one setting, and its line.
// Stays: the line of a write: other settings, and other counts, than the line of a read.
fn setting(
    rt: &impl Print,
    retries: u16,
    pec: bool,
    old: &[u8; FLASH_BYTES],
    clean: &[u8; FLASH_BYTES],
) -> io::Result<()> {
    let config = Config {
        max_read_retries: 9, // which no write looks at
        pec_read: false,
        ..settings(retries, pec)
    };
    let mut counts = Counts::default();
    course::each(|course| run(config, course, old, clean, &mut counts));
    println!(rt; "retries {retries} pec {}: {counts}", pec as u8)
}

// The line of each setting.
// Stays: the settings of a write, as `gauge_reads` has those of a read.
fn all(rt: &impl Print) -> io::Result<()> {
    let mut old = [0u8; FLASH_BYTES];
    flash::fill(&mut old);
    let clean = laid(&old, 70);
    for retries in 0..3u16 {
        setting(rt, retries, false, &old, &clean)?;
        setting(rt, retries, true, &old, &clean)?;
    }
    Ok(())
}

fn main(rt: HostRuntime) {
    let _ = all(&Untold(&rt));
}

// A call of a kind over scripts.
use crate::marks;
use crate::say::{Shown, Stand};
use calls::call::Call;
use calls::kind::Kind;
use engine::bus::{Reported, Transfer};
use fixture::digits::Digits;
use fixture::settings::settings;
use protocol::bytes;
use protocol::common::Config;
use std::io;

// The scripts of a call that writes, and of one that reads.
const WRITING: [&str; 9] = [
    "", "aaasl", "eataea", "ef", "tt", "te", "att", "aef", "rslba",
];

const READING: [&str; 11] = [
    "", "aaasl", "aeaaaa", "ef", "tt", "te", "tat", "aapat", "tpp", "qrslba", "aqrba",
];

// What a call is lent: one that writes a payload of so many bytes, one that reads a buffer, which is shown at the end of a line.
#[derive(Clone, Copy, Debug, PartialEq, Eq)]
pub(crate) enum Lent {
    Payload(usize),
    Buffer(usize),
}

// The call that a report hands back; a refusal is said.
fn taken(rt: &impl Print, reported: Reported<Call>) -> io::Result<Call> {
    match reported {
        Err((a, same)) => {
            print!(rt; " ({})", a.number())?;
            Ok(same)
        }
        Ok(next) => Ok(next),
    }
}

// The reply to a transfer, at the front of what is lent, and its length.
fn reply(mark: u8, transfer: Transfer, reply: &mut [u8]) -> usize {
    match transfer {
        Transfer::Read(command, n) => {
            marks::fill(reply, mark, n, command);
            marks::count(mark, n)
        }
        _ => marks::count(mark, 0),
    }
}

// One transfer and its outcome.
fn step(
    rt: &impl Print,
    call: Call,
    mark: u8,
    payload: &[u8],
    buffer: &mut [u8],
) -> io::Result<Call> {
    let mut work = [0u8; 39];
    let mut room = [0u8; 64];
    let length = marks::work(mark);
    let transfer = call.next(payload, buffer, &mut work[..length]).transfer;
    let built = bytes::front(&work, length);
    let frame = call.to_send(payload, built, transfer.sent());
    print!(rt; " {}", Shown { transfer, frame })?;
    let n = reply(mark, transfer, &mut room);
    let came = bytes::front(&room, n);
    taken(
        rt,
        call.report(marks::outcome(mark), came, payload, buffer, built),
    )
}

// A call over a script, on a line, with one retry, PEC either on writes or on reads, and a buffer of n bytes at the front of the room.
// Stays: the buffer's length is the row's, at the front of one array for all rows.
fn line(
    rt: &impl Print,
    kind: Kind,
    pec_write: bool,
    payload: &[u8],
    room: &mut [u8; 64],
    n: usize,
    script: &str,
) -> io::Result<()> {
    let config = Config {
        pec_read: !pec_write,
        ..settings(1, pec_write)
    };
    let mut call = Call::start(kind, config, payload, bytes::front(room, n), &[0u8; 39]);
    print!(rt; "{script}")?;
    for mark in script.bytes() {
        let size = marks::buffer(mark, n);
        call = step(
            rt,
            call,
            mark,
            marks::payload(mark, payload),
            &mut room[..size],
        )?;
    }
    print!(rt; " : {}", Stand(call))
}

// A call of a kind, under its title, through success, retries, each failure and the refusals of a step.
pub(crate) fn row(
    rt: &impl Print,
    title: &str,
    kind: Kind,
    lent: Lent,
    pec_write: bool,
) -> io::Result<()> {
    println!(rt; "{title}")?;
    match lent {
        Lent::Payload(n) => {
            let source: &[u8] = match n {
                2 => b"\xAA\xBB",
                33 => &[0xCC; 33],
                _ => &[0xDD; 28],
            };
            for script in WRITING {
                let mut room = [0xA5u8; 64];
                line(
                    rt,
                    kind,
                    pec_write,
                    bytes::front(source, n),
                    &mut room,
                    0,
                    script,
                )?;
                println!(rt)?;
            }
        }
        Lent::Buffer(n) => {
            for script in READING {
                let mut room = [0xA5u8; 64];
                line(rt, kind, pec_write, b"", &mut room, n, script)?;
                println!(rt; " {}", Digits(bytes::front(&room, n)))?;
            }
        }
    }
    Ok(())
}

// Replays a list of answers on the ported code: how many cases it ran, how many differ, and the first that does. The list, in the form
// of docs/BENCH.md, is the file that the first argument names. It is read twice at the same time, once for what goes in and once for
// what must come out, so that a case may have any number of lines.
#![tactic(auto)]

mod reader;

use crate::reader::{Reader, Tag};
use dialogue::{Run, Said, Turned};
use protocol::bytes;
use session::{BUFFER_BYTES, LINE_BYTES, OUTCOME_BYTES, REQUEST_BYTES};
use std::env::{Env, FillError};
use std::io::Read;
use std::rt::Files;
use std::{fs, io, str};

// What a line of a case is answered in.
// Stays: as the session's `Lent`, with room for one line: a size there would stand in every clause that speaks of it.
#[derive(Drop)]
struct Desk {
    request: [u8; REQUEST_BYTES],
    outcome: [u8; OUTCOME_BYTES],
    buffer: [u8; BUFFER_BYTES],
    out: [u8; LINE_BYTES],
}

impl Desk {
    fn new() -> Self {
        Desk {
            request: [0; REQUEST_BYTES],
            outcome: [0; OUTCOME_BYTES],
            buffer: [0; BUFFER_BYTES],
            out: [0; LINE_BYTES],
        }
    }

    // What a line of a case leads to: an input line, one that lacks its line feed, or the end of the case.
    // Stays: an arm for each of the two tags that go in; every other tag ends the case.
    fn turned(&mut self, run: Run, tag: Tag, text: &[u8]) -> Turned {
        match tag {
            Tag::Input => dialogue::answer(
                run,
                text,
                &mut self.request,
                &mut self.outcome,
                &mut self.buffer,
                &mut self.out,
            ),
            Tag::Unfinished => self.closed(run, text),
            _ => self.closed(run, b""),
        }
    }

    // What the end of the input leads to, after the bytes of a line that lacks its line feed.
    fn closed(&mut self, run: Run, text: &[u8]) -> Turned {
        Turned {
            run,
            said: Said::Last(dialogue::close(run, text, &self.buffer, &mut self.out)),
        }
    }

    // Whether a line of the list is what was printed, but for its line feed.
    fn printed(&self, said: Said, text: &[u8]) -> bool {
        let (Said::Asked(n) | Said::Last(n)) = said;
        match bytes::front(&self.out, n).split_last() {
            Some((_, line)) => text == line,
            None => false,
        }
    }
}

// What a line of a case comes to.
// Stays: three ways on, told apart in one match.
#[derive(Clone, Copy, Debug, PartialEq, Eq)]
enum Step {
    // As the list has it, and the case goes on.
    On(Run),
    // As the list has it, and the case is over.
    Over,
    // What was printed is not what the list has.
    Differs,
}

// The first case that differs: its number, and how many bytes its words have.
#[derive(Clone, Copy, Debug, PartialEq, Eq)]
struct First {
    case: u64,
    words: usize,
}

// How many cases were run, how many differ, and the first of these.
#[derive(Clone, Copy, Debug, PartialEq, Eq)]
struct Score {
    cases: u64,
    differ: u64,
    first: Option<First>,
}

impl Score {
    // One case more.
    fn count(&mut self, same: bool, words: usize) {
        self.cases = self.cases.saturating_add(1);
        if same {
            return;
        }
        self.differ = self.differ.saturating_add(1);
        if self.first.is_none() {
            self.first = Some(First {
                case: self.cases,
                words,
            });
        }
    }
}

// Where the program stands: the list, once for what goes in and once for what must come out, and what its cases came to. The words of each case are kept until
// one differs.
#[derive(Drop)]
struct Replay<F> {
    input: Reader<F>,
    expected: Reader<F>,
    desk: Desk,
    score: Score,
    words: [u8; 4096],
}

impl<F: Read> Replay<F> {
    // A replay of the list that two files are open on.
    fn new(first: F, second: F) -> Self {
        Replay {
            input: Reader::new(first),
            expected: Reader::new(second),
            desk: Desk::new(),
            score: Score {
                cases: 0,
                differ: 0,
                first: None,
            },
            words: [0; 4096],
        }
    }

    // A line goes in, and what is printed is held against a line of the list.
    fn step(&mut self, run: Run) -> Step {
        self.input.seek(Tag::Input);
        self.expected.seek(Tag::Output);
        let turned = self.desk.turned(run, self.input.tag, self.input.text());
        if self.expected.tag != Tag::Output
            || !self.desk.printed(turned.said, self.expected.text())
        {
            return Step::Differs;
        }
        match turned.said {
            Said::Asked(_) => Step::On(turned.run),
            Said::Last(_) => Step::Over,
        }
    }

    // Runs a case whose words were read, and says whether all was as the list has it: every line, up to the first that differs, and nothing more was to come out.
    fn run_case(&mut self) -> bool {
        let mut run = Run::Fresh;
        for _ in 0..u64::MAX {
            match self.step(run) {
                Step::On(after) => run = after,
                Step::Over => break,
                Step::Differs => return false,
            }
        }
        self.expected.seek(Tag::Output);
        self.expected.tag != Tag::Output
    }

    // The next case, unless the list has ended.
    fn next_case(&mut self) -> bool {
        self.input.seek(Tag::Words);
        self.expected.seek(Tag::Words);
        if self.input.tag == Tag::End {
            return false;
        }
        let words = self.input.line();
        let len = words.len();
        if self.score.first.is_none() {
            bytes::copy_block(&mut self.words, words, 4096);
        }
        let same = self.run_case();
        self.score.count(same, len);
        true
    }

    // The whole list, unless a read of one of its files fails.
    fn run(&mut self) -> io::Result<()> {
        for _ in 0..u64::MAX {
            if !self.next_case() {
                break;
            }
        }
        match self.input.failed.or(self.expected.failed) {
            Some(error) => Err(error),
            None => Ok(()),
        }
    }

    // Prints the counts, and the first case that differs.
    fn print<R: Print>(&self, rt: &R) -> io::Result<()> {
        println!(rt; "{} cases, {} differ", self.score.cases, self.score.differ)?;
        if let Some(first) = self.score.first {
            print!(rt; "the first is case {}: ", first.case)?;
            rt.write_all(bytes::front(&self.words, first.words))?;
            rt.write_all(b"\n")?;
        }
        Ok(())
    }
}

// Replays the list at a path, unless it cannot be read, and prints its score. Where nothing can be printed, it tells why on standard error.
// The replay stays where it is made: handed back by value, its arrays would be copied, and lie on the stack several times.
fn replayed<R: Files + Print + Eprint + Alloc>(rt: &R, path: &str) -> io::Result<()> {
    let first = fs::open(rt, path)?;
    let second = fs::open(rt, path)?;
    let mut replay = Replay::new(first, second);
    replay.run()?;
    if let Err(error) = replay.print(rt) {
        chunks::tell(rt, "replay: standard output", error);
    }
    Ok(())
}

// The same. Where the list cannot be read, it tells why on standard error.
fn report<R: Files + Print + Eprint + Alloc>(rt: &R, path: &str) {
    if let Err(error) = replayed(rt, path) {
        chunks::tell(rt, path, error);
    }
}

// The path that the first argument names, as it is laid in `bytes`.
// Stays: an arm for each thing that may be wrong with an argument: the match shows that none is missing, which a table of functions would not.
fn path<'a, R: Env>(rt: &R, bytes: &'a mut [u8; 4096]) -> io::Result<&'a str> {
    match rt.arg(1, bytes) {
        Ok(n) => str::from_utf8(&bytes[..n]).map_err(|_| io::Error::from(
            io::ErrorKind::InvalidData,
        )),
        Err(FillError::NotPresent) => Err(io::Error::new(
            io::ErrorKind::InvalidInput,
            "Invalid argument",
        )),
        Err(FillError::TooLong) => Err(io::Error::new(
            io::ErrorKind::InvalidInput,
            "File name too long",
        )),
    }
}

fn main(rt: HostRuntime) {
    let mut bytes = [0u8; 4096];
    match path(&rt, &mut bytes) {
        Ok(path) => report(&rt, path),
        Err(error) => chunks::tell(&rt, "list", error),
    }
}

// The packs of a file, one a line, from chunks of any size: what a line says, and the count over the lines so far. A chunk's whole lines are taken where
// they lie, and no line is copied or held: of one that is not whole yet, the number that its digits make is kept. (02, W-212)
#![tactic(auto)]

ghost use Rattle.std.specs.Prelude.{◌≡◌, ◌+◌, ◌≤◌, ◌<◌, length, get_or};
ghost use Rattle.packs.specs.Sheet.{sheet};
ghost use Rattle.packs.specs.Count.{start_sheet, seen_of, is_refused, add_read, add_unread, one_more, between_of, refused_of, said_of, counted_of, digit_of, step_of, feed_of};
ghost use Rattle.packs.specs.Ahead.{line_at, used_by, turn_of};

use crate::digits::Digits;

mod digits;

// A file has at most so many packs.
pub const MOST_PACKS: u32 = 65535;

// A line's digits so far are a number after a 1. At its start there are none.
pub const NO_DIGITS: u32 = 1;

// In place of that number, where the line is no pack, whatever follows.
const REFUSED: u32 = 0;

// Six digits have at least this number.
const SIX_DIGITS: u32 = 0x1000000;

// The pack that a line tells of.
#[derive(Clone, Copy, Debug, PartialEq, Eq)]
pub enum Pack {
    // It was read, and has so many cycles.
    Read(u16),
    // It was not read: the number of the answer that stopped it.
    Unread(u8),
}

impl Pack {
    // How many bytes its line has: the digits and the line feed.
    fn bytes(self) -> usize
        ensures { result ≡ used_by (Some self) }
    {
        match self {
            Pack::Read(_) => 7,
            Pack::Unread(_) => 5,
        }
    }
}

// The count over the packs so far. How often each answer stopped a read is counted beside it.
#[derive(Clone, Copy, Debug, PartialEq, Eq)]
pub struct Count {
    pub read: u16,
    pub unread: u16,
    // Of the read ones: their cycles together, the fewest and the most. With none read yet, 0, 65,535 and 0.
    pub sum: u32,
    pub lowest: u16,
    pub highest: u16,
}

impl Count {
    // How many packs are counted.
    pub fn seen(self) -> u32
        ensures { result ≡ seen_of self }
    {
        self.read as u32 + self.unread as u32
    }

    // One more that was read, with so many cycles.
    fn add_read(self, cycles: u16) -> Count
        requires { self.read < 65535 }
        ensures { result ≡ add_read self cycles }
    {
        Count {
            read: self.read + 1,
            sum: self.sum.wrapping_add(cycles as u32),
            lowest: cycles.min(self.lowest),
            highest: cycles.max(self.highest),
            ..self
        }
    }

    // One more that was not.
    fn add_unread(self) -> Count
        requires { self.unread < 65535 }
        ensures { result ≡ add_unread self }
    {
        Count {
            unread: self.unread + 1,
            ..self
        }
    }
}

// Where the input stands: the count over the lines so far, and how far the line at hand is read.
#[derive(Clone, Copy, Debug, PartialEq, Eq)]
pub struct Reader {
    pub count: Count,
    // Its digits, as a number after a 1: 1 between two lines, 1ABC hex after A, B and C. 0 where it is refused; then nothing that follows is looked at.
    // Stays: good C keeps one number here (benches/count.c); tried, an `Option<u32>` is a word more to carry, and the ratio to C rises from .602 to .621.
    pub line: u32,
}

impl Reader {
    // At the start of a line.
    fn between(count: Count) -> Reader
        ensures { result ≡ between_of count }
    {
        Reader {
            count,
            line: NO_DIGITS,
        }
    }

    // In a line that is refused.
    fn refuse(self) -> Reader
        ensures { result ≡ refused_of self.count }
    {
        Reader {
            line: REFUSED,
            ..self
        }
    }

    // Whether the line after those that are counted is refused.
    pub fn is_refused(self) -> bool
        ensures { result ≡ is_refused self }
    {
        self.line == REFUSED
    }

    // One more digit of a line that has fewer than six.
    fn digit(self, value: u8) -> Reader
        requires { self.line < 0x1000000 }
        ensures { result ≡ digit_of self value }
    {
        Reader {
            line: self.line * 16 + value as u32,
            ..self
        }
    }
}

// What a line's digits say: 00 and the cycles, low byte first; 01 and an answer that is not 0.
fn said_by(line: u32) -> Option<Pack>
    ensures { result ≡ said_of line }
{
    match line.to_be_bytes() {
        [1, 0, low, high] => Some(Pack::Read(u16::from_le_bytes([low, high]))),
        [0, 1, 1, answer] if answer != 0 => Some(Pack::Unread(answer)),
        _ => None,
    }
}

// What the count has before it: where the input stands, and how often each answer stopped a read.
#[derive(Clone, Copy)]
pub struct Sheet {
    pub reader: Reader,
    pub numbers: [u16; 256],
}

impl Sheet {
    // With nothing read yet, and no answer counted.
    pub fn start() -> Sheet
        ensures { result ≡ start_sheet }
    {
        let none = Count {
            read: 0,
            unread: 0,
            sum: 0,
            lowest: u16::MAX,
            highest: 0,
        };
        Sheet {
            reader: Reader::between(none),
            numbers: [0; 256],
        }
    }

    // One more that this answer stopped.
    fn tick(&mut self, answer: u8)
        ensures { self.new ≡ sheet self.old.reader (one_more answer self.old.numbers) }
    {
        let k = answer as usize;
        self.numbers[k] = self.numbers[k].wrapping_add(1);
    }

    // A line is whole, and tells of this pack. It is refused where it is no pack, or one too many.
    fn count(&mut self, pack: Option<Pack>)
        ensures { self.new ≡ counted_of pack self.old.reader.count self.old.numbers }
    {
        let count = self.reader.count;
        if MOST_PACKS <= count.seen() {
            self.reader = self.reader.refuse();
            return;
        }
        let Some(pack) = pack else {
            self.reader = self.reader.refuse();
            return;
        };
        match pack {
            Pack::Read(cycles) => self.reader = Reader::between(count.add_read(cycles)),
            Pack::Unread(answer) => {
                self.tick(answer);
                self.reader = Reader::between(count.add_unread());
            }
        }
    }

    // One byte of the input.
    fn step(&mut self, byte: u8, digits: &Digits)
        ensures { self.new ≡ step_of byte self.old }
    {
        if self.reader.is_refused() {
            return;
        }
        if byte == b'\n' {
            self.count(said_by(self.reader.line));
            return;
        }
        let value = digits.value(byte);
        if 15 < value || SIX_DIGITS <= self.reader.line {
            self.reader = self.reader.refuse();
            return;
        }
        self.reader = self.reader.digit(value);
    }

    // The pack of the line that lies whole at a place of a chunk, where the reader stands between two lines; in the middle of one, none.
    fn line_at(&self, chunk: &[u8], at: usize, digits: &Digits) -> Option<Pack>
        requires { at ≤ length chunk.now }
        ensures { result ≡ line_at self.now.reader.line chunk.now at }
    {
        if self.reader.line != NO_DIGITS {
            return None;
        }
        digits.ahead(chunk, at)
    }

    // The pack of the line that lies whole at a place of a chunk is counted; where there is none, one byte is taken. Where the input goes on.
    fn turn(&mut self, pack: Option<Pack>, chunk: &[u8], at: usize, digits: &Digits) -> usize
        requires { at + used_by pack ≤ length chunk.now }
        ensures { (result ≡ at + used_by pack) × (self.new ≡ turn_of pack (get_or chunk.now at 0) self.old) }
    {
        let Some(line) = pack else {
            self.step(chunk[at], digits);
            return at + 1;
        };
        self.count(pack);
        at + line.bytes()
    }

    // A chunk of the input.
    pub fn take(&mut self, chunk: &[u8])
        ensures { self.new ≡ feed_of chunk.now self.old }
    {
        let digits = Digits::new();
        let mut i = 0;
        // Stays: a turn takes 7 bytes, 5 or 1, by which no `for` goes.
        while i < chunk.len() {
            let pack = self.line_at(chunk, i, &digits);
            i = self.turn(pack, chunk, i, &digits);
        }
    }
}

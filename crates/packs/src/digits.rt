// The values of the hexadecimal digits, by a table, and the line that lies whole in a chunk. (02, W-212)
ghost use Rattle.std.specs.Prelude.{◌≡◌, ◌+◌, ◌≤◌, ◌<◌, length};
ghost use Rattle.hexadecimal.specs.Hex.{value_of};
ghost use Rattle.packs.specs.Digits.{Tabled, up_to};
ghost use Rattle.packs.specs.Ahead.{pair_at, read_ahead, unread_ahead, ahead_of};

use crate::Pack;

// The longest line has six digits and a line feed.
const LONGEST_LINE: usize = 7;

// The value of each digit, and 16 of a byte that is none, 16 bytes to a line.
const VALUES: [u8; 256] = *b"\
    \x10\x10\x10\x10\x10\x10\x10\x10\x10\x10\x10\x10\x10\x10\x10\x10\
    \x10\x10\x10\x10\x10\x10\x10\x10\x10\x10\x10\x10\x10\x10\x10\x10\
    \x10\x10\x10\x10\x10\x10\x10\x10\x10\x10\x10\x10\x10\x10\x10\x10\
    \x00\x01\x02\x03\x04\x05\x06\x07\x08\x09\x10\x10\x10\x10\x10\x10\
    \x10\x0a\x0b\x0c\x0d\x0e\x0f\x10\x10\x10\x10\x10\x10\x10\x10\x10\
    \x10\x10\x10\x10\x10\x10\x10\x10\x10\x10\x10\x10\x10\x10\x10\x10\
    \x10\x10\x10\x10\x10\x10\x10\x10\x10\x10\x10\x10\x10\x10\x10\x10\
    \x10\x10\x10\x10\x10\x10\x10\x10\x10\x10\x10\x10\x10\x10\x10\x10\
    \x10\x10\x10\x10\x10\x10\x10\x10\x10\x10\x10\x10\x10\x10\x10\x10\
    \x10\x10\x10\x10\x10\x10\x10\x10\x10\x10\x10\x10\x10\x10\x10\x10\
    \x10\x10\x10\x10\x10\x10\x10\x10\x10\x10\x10\x10\x10\x10\x10\x10\
    \x10\x10\x10\x10\x10\x10\x10\x10\x10\x10\x10\x10\x10\x10\x10\x10\
    \x10\x10\x10\x10\x10\x10\x10\x10\x10\x10\x10\x10\x10\x10\x10\x10\
    \x10\x10\x10\x10\x10\x10\x10\x10\x10\x10\x10\x10\x10\x10\x10\x10\
    \x10\x10\x10\x10\x10\x10\x10\x10\x10\x10\x10\x10\x10\x10\x10\x10\
    \x10\x10\x10\x10\x10\x10\x10\x10\x10\x10\x10\x10\x10\x10\x10\x10";

// The table, whose rule is proved once, over all its entries. It is laid on the stack once for a chunk, and lent.
#[derive(Clone, Copy)]
pub(crate) struct Digits {
    values: [u8; 256],
    ghost tabled: { Tabled values },
}

impl Digits {
    pub(crate) fn new() -> Digits {
        Digits { values: VALUES }
    }

    // The value of a digit, and 16 of a byte that is none.
    // Stays: the entry as it stands in the table: an `Option` made of it would be taken apart again where two digits are tested at once, and good C looks up one byte.
    pub(crate) fn value(&self, digit: u8) -> u8
        ensures { result ≡ value_of digit }
    {
        self.values[digit as usize]
    }

    // The byte of the two digits at a place of a chunk, the high one first.
    fn pair(&self, chunk: &[u8], at: usize) -> Option<u8>
        requires { at + 1 < length chunk.now }
        ensures { result ≡ up_to 255 (pair_at chunk.now at) }
    {
        let high = self.value(chunk[at]);
        let low = self.value(chunk[at + 1]);
        if 15 < high || 15 < low {
            return None;
        }
        Some(high * 16 + low)
    }

    // The pack of a line at a place of a chunk whose first byte is 00.
    fn read_ahead(&self, chunk: &[u8], at: usize) -> Option<Pack>
        requires { at + 6 < length chunk.now }
        ensures { result ≡ read_ahead chunk.now at }
    {
        if chunk[at + 6] != b'\n' {
            return None;
        }
        let low = self.pair(chunk, at + 2)?;
        let high = self.pair(chunk, at + 4)?;
        Some(Pack::Read(u16::from_le_bytes([low, high])))
    }

    // The same, whose first byte is 01.
    fn unread_ahead(&self, chunk: &[u8], at: usize) -> Option<Pack>
        requires { at + 6 < length chunk.now }
        ensures { result ≡ unread_ahead chunk.now at }
    {
        if chunk[at + 4] != b'\n' {
            return None;
        }
        let answer = self.pair(chunk, at + 2)?;
        (answer != 0).then_some(Pack::Unread(answer))
    }

    // The pack of the line that lies whole at a place of a chunk, where the longest line has room there. Any other line is read byte by byte.
    // Stays: a place in a chunk and no slice from there on: the turn goes on from it.
    pub(crate) fn ahead(&self, chunk: &[u8], at: usize) -> Option<Pack>
        requires { at ≤ length chunk.now }
        ensures { result ≡ ahead_of chunk.now at }
    {
        if chunk.len() - at < LONGEST_LINE || chunk[at] != b'0' {
            return None;
        }
        match chunk[at + 1] {
            b'0' => self.read_ahead(chunk, at),
            b'1' => self.unread_ahead(chunk, at),
            _ => None,
        }
    }
}

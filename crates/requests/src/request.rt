// A request line: kind, flags, retries (2 bytes, or two budgets of 2, that of writes first), then the arguments of the kind. Every number is low byte first.
ghost use Rattle.std.specs.Prelude.{◌≡◌, ◌<◌, length};
ghost use Rattle.requests.specs.Request.{two_budgets, header_bytes, read_retries, config_of, header_of, unknown_flags, called_of, exact_of, asked_of, request_line};
ghost use Rattle.requests.specs.Retired.{retired_kind};

use crate::fields::{byte, pair, quad};
use calls::kind::Kind;
use protocol::bytes;
use protocol::common::Config;
use protocol::consts::{
    AUTH_KEY_DATA_LEN_BYTES, CHRG_VOLTAGE_OVERRIDE_SIZE_BYTES, SECURITY_KEYS_R5_DATA_LEN_BYTES,
};
use protocol::error::Answer;

// A payload, an input, a buffer and a reply have at most so many bytes.
pub const MOST_BYTES: usize = 8192;

// The header with one number of retries: kind, flags, retries. The arguments follow it.
const HEADER_BYTES: u8 = 4;

// The header with two budgets.
const LONGEST_HEADER: u8 = HEADER_BYTES + 2;

// Where a command's input starts in its arguments, the most that stand before a payload.
const INPUT_AT: usize = 6;

// The longest request line is a command's.
pub const LONGEST_REQUEST: usize = LONGEST_HEADER as usize + INPUT_AT + MOST_BYTES;

// What a header says: the settings, in so many bytes (a `u8`, so that a place behind it is a number of the machine).
#[derive(Clone, Copy, Debug, PartialEq, Eq)]
pub struct Header {
    pub config: Config,
    pub bytes: u8,
}

// The call that a request line asks for, with its settings: its payload, or a command's input, is the line from byte `at` on, and its buffer has `len`
// bytes, none where it reads nothing.
#[derive(Clone, Copy, Debug, PartialEq, Eq)]
pub struct Asked {
    pub kind: Kind,
    pub config: Config,
    pub at: usize,
    pub len: usize,
}

// The arguments of a kind, and the header that stands before them.
#[derive(Clone, Copy, Debug, PartialEq, Eq)]
struct Arguments<'a> {
    header: Header,
    bytes: &'a [u8],
}

impl Arguments<'_> {
    // A call with a buffer of `len` bytes, whose payload is what follows `at` bytes of the arguments; each has at most `MOST_BYTES`.
    fn call(self, kind: Kind, at: usize, len: usize) -> Result<Asked, Answer>
        ensures { result ≡ called_of kind self.entry.header at len (length self.entry.bytes.now) }
    {
        if MOST_BYTES < len || self.bytes.len() < at || MOST_BYTES < self.bytes.len() - at {
            return Err(Answer::BadLine);
        }
        Ok(Asked {
            kind,
            config: self.header.config,
            at: self.header.bytes as usize + at,
            len,
        })
    }

    // A call whose payload has exactly so many bytes.
    fn exact(self, kind: Kind, at: usize, payload: usize, len: usize) -> Result<Asked, Answer>
        requires at_in_bounds { at < 256 }
        requires payload_in_bounds { payload < 256 }
        ensures { result ≡ exact_of kind self.entry.header at payload len (length self.entry.bytes.now) }
    {
        if self.bytes.len() != at + payload {
            return Err(Answer::BadLine);
        }
        self.call(kind, at, len)
    }

    // What a kind asks for, by its number.
    // Stays: a row for each kind by its number: the table of the bench's requests.
    fn asked(self, kind: u8) -> Result<Asked, Answer>
        ensures { result ≡ asked_of kind self.entry.header self.entry.bytes.now }
    {
        let args = self.bytes;
        match kind {
            0x01 => self.call(Kind::WriteDataflash(pair(args, 0)), 2, 0),
            0x02 => self.exact(
                Kind::ReadDataflash(pair(args, 0)),
                4,
                0,
                pair(args, 2) as usize,
            ),
            0x03 => self.call(Kind::WriteRegister(byte(args, 0)), 1, 0),
            0x04 => self.exact(
                Kind::ReadRegister(byte(args, 0)),
                3,
                0,
                pair(args, 1) as usize,
            ),
            0x05 => self.call(
                Kind::DispatchCommand(quad(args, 0)),
                INPUT_AT,
                pair(args, 4) as usize,
            ),
            0x06 => self.exact(
                Kind::ReadBuffer(byte(args, 0)),
                3,
                0,
                pair(args, 1) as usize,
            ),
            0x07 => self.call(Kind::WriteBuffer(byte(args, 0)), 1, 0),
            0x08 => self.exact(
                Kind::ReadSecurityKeys,
                0,
                0,
                SECURITY_KEYS_R5_DATA_LEN_BYTES,
            ),
            0x09 => self.call(Kind::WriteSecurityKeys, 0, 0),
            0x0A => self.exact(Kind::ReadAuthenticationKey, 0, 0, AUTH_KEY_DATA_LEN_BYTES),
            0x0B => self.call(Kind::WriteAuthenticationKey, 0, 0),
            // 0C and 0D are retired and never given out again: their lines are refused by `retired_kind`, before they are decoded.
            0x0E => self.exact(
                Kind::SendAccessKey {
                    lower: pair(args, 0),
                    upper: pair(args, 2),
                },
                4,
                0,
                0,
            ),
            0x0F => self.exact(Kind::ReadMfgInfoC, 2, 0, pair(args, 0) as usize),
            0x10 => self.call(
                Kind::WriteMfgInfoC {
                    lower: pair(args, 0),
                    upper: pair(args, 2),
                },
                4,
                0,
            ),
            0x11 => self.exact(Kind::ReadMfgInfo, 2, 0, pair(args, 0) as usize),
            0x12 => self.call(Kind::WriteMfgInfo, 0, 0),
            0x13 => self.exact(
                Kind::ReadChargingVoltageOverride,
                0,
                0,
                CHRG_VOLTAGE_OVERRIDE_SIZE_BYTES,
            ),
            0x14 => self.exact(
                Kind::WriteChargingVoltageOverride,
                0,
                CHRG_VOLTAGE_OVERRIDE_SIZE_BYTES,
                0,
            ),
            0x15 => self.call(Kind::WriteWithRetries, 0, 0),
            _ => Err(Answer::BadLine),
        }
    }
}

// Whether a flag is set that means nothing: one of bits 4 to 7.
fn unknown_flags(flags: u8) -> bool
    ensures { result ≡ unknown_flags flags }
{
    flags > 0x0F
}

// Whether two budgets follow the flags: bit 2.
fn two_budgets(flags: u8) -> bool
    ensures { result ≡ two_budgets flags }
{
    flags & 4 != 0
}

// How many bytes the header has.
fn header_bytes(flags: u8) -> u8
    ensures { result ≡ header_bytes flags }
{
    if two_budgets(flags) {
        LONGEST_HEADER
    } else {
        HEADER_BYTES
    }
}

// The retries of reads: they follow those of writes, or are the same number.
fn read_retries(line: &[u8]) -> u16
    ensures { result ≡ read_retries line.now }
{
    if two_budgets(byte(line, 1)) {
        pair(line, 4)
    } else {
        pair(line, 2)
    }
}

// The settings that a request line gives.
fn config(line: &[u8]) -> Config
    ensures { result ≡ config_of line.now }
{
    let flags = byte(line, 1);
    Config {
        max_write_retries: pair(line, 2),
        max_read_retries: read_retries(line),
        pec_write: flags & 1 != 0,
        pec_read: flags & 2 != 0,
        growing_waits: flags & 8 != 0,
    }
}

// What stands before the arguments.
fn header_of(line: &[u8]) -> Header
    ensures { result ≡ header_of line.now }
{
    Header {
        config: config(line),
        bytes: header_bytes(byte(line, 1)),
    }
}

// Whether a request line, as characters, is of a retired kind: it begins with 0C or 0D. Nothing else on it is looked at.
pub fn retired_kind(line: &[u8]) -> bool
    ensures { result ≡ retired_kind line.now }
{
    matches!(line, [b'0', b'C' | b'D', ..])
}

// What the bytes of a request line ask for. Those of a retired kind are a bad line here, like any number that is no kind; the bench program hands none
// over, since `retired_kind` refuses the line first.
pub fn read(line: &[u8]) -> Result<Asked, Answer>
    ensures { result ≡ request_line line.now }
{
    if unknown_flags(byte(line, 1)) {
        return Err(Answer::BadLine);
    }
    let header = header_of(line);
    if line.len() < header.bytes as usize {
        return Err(Answer::BadLine);
    }
    let bytes = bytes::rest(line, header.bytes as usize);
    Arguments { header, bytes }.asked(byte(line, 0))
}

// The frames that the gauge takes, read byte by byte.
ghost use Rattle.std.specs.Prelude.{◌≡◌, ◌++◌, ◌+◌, ◌*◌};
ghost use Rattle.smbus_pec.specs.Pec.{pec_of};
ghost use Rattle.model_gauge.specs.Frame.{whole_of, form_of, read_frame};

use protocol::bytes;
use protocol::consts::{BQ_ADDR, MAC_CMD};

// What a frame says.
// Stays: document 01 names this enum, of which each user takes the form it needs or leaves at once.
#[derive(Clone, Copy, Debug, PartialEq, Eq)]
pub enum Form {
    // Store so many bytes, the frame's fifth and on, from this address on.
    BlockWrite { address: u16, count: usize },
    // Read from this address on.
    Address(u16),
    // Nothing that the gauge takes.
    Other,
}

// The PEC of an opening and what follows it.
pub(crate) fn check_byte(opening: &[u8], bytes: &[u8]) -> u8
    ensures { result ≡ pec_of 0 (opening.now ++ bytes.now) }
{
    smbus_pec::pec(smbus_pec::pec(0, opening), bytes)
}

// The number of two bytes, low byte first.
fn word(low: u8, high: u8) -> u16
    ensures { result ≡ high * 256 + low }
{
    u16::from_le_bytes([low, high])
}

// Whether a frame is as long as its count says, or has one byte more that is its PEC.
fn whole(frame: &[u8], count: u8) -> bool
    ensures { result ≡ whole_of frame.now count }
{
    let size = count as usize + 2;
    if frame.len() == size {
        return true;
    }
    if frame.len() == size + 1 {
        check_byte(&[BQ_ADDR * 2], bytes::front(frame, size)) == frame[size]
    } else {
        false
    }
}

// What a frame with this count and this address says.
fn form_of(count: u8, address: u16) -> Form
    ensures { result ≡ form_of count address }
{
    match count {
        2 => Form::Address(address),
        3..=34 => Form::BlockWrite {
            address,
            count: count as usize - 2,
        },
        _ => Form::Other,
    }
}

// The frame reader: a block write, an address, or neither.
pub(crate) fn read_frame(frame: &[u8]) -> Form
    ensures { result ≡ read_frame frame.now }
{
    if frame.len() < 4 {
        return Form::Other;
    }
    let count = frame[1];
    if frame[0] == MAC_CMD && whole(frame, count) {
        form_of(count, word(frame[2], frame[3]))
    } else {
        Form::Other
    }
}

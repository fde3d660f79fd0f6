// What a mark of a script stands for: what is lent, and what is reported. Marks that are not named are acknowledged, with what was asked for.
ghost use Rattle.std.specs.Prelude.{◌≤◌};

use engine::bus::Outcome;
use protocol::bytes;

// The outcome: e is bus error 5, f bus error 9, t a timeout.
// Stays: a mark is the letter of a script, as it is written there; an enum would name each letter once more.
pub(crate) fn outcome(mark: u8) -> Outcome {
    match mark {
        b'e' => Outcome::BusError(5),
        b'f' => Outcome::BusError(9),
        b't' => Outcome::Timeout,
        _ => Outcome::Acknowledged,
    }
}

// How many bytes of reply come where n were asked for: with r, b and f one more, with q one fewer (where none is asked for, one more).
pub(crate) fn count(mark: u8, n: usize) -> usize {
    match mark {
        b'r' | b'b' | b'f' => n.min(63) + 1,
        b'q' if n == 0 => 1,
        b'q' => n - 1,
        _ => n,
    }
}

// The bytes 10, 11, .. hex.
fn count_up(reply: &mut [u8]) {
    let mut next = 0x10u8;
    for byte in reply.iter_mut() {
        *byte = next;
        next = next.wrapping_add(1);
    }
}

// The command that a reply's PEC is worked out with: that of the read, but 44 where a command is read by 01; for p another one.
fn covered(mark: u8, command: u8) -> u8 {
    let by = if command == 0x01 { 0x44 } else { command };
    if mark == b'p' { by ^ 1 } else { by }
}

// A reply of n bytes at the front of what is lent: its last byte is the PEC of 16, the command that it covers, 17 and what comes before it.
// Stays: the reply's length is what is asked for, at the front of what is lent.
pub(crate) fn fill(reply: &mut [u8], mark: u8, n: usize, command: u8) {
    let opening = [0x16, covered(mark, command), 0x17];
    count_up(reply);
    if n != 0 && n <= reply.len() {
        let before = bytes::front(reply, n - 1);
        let check = smbus_pec::pec(smbus_pec::pec(0, &opening), before);
        reply[n - 1] = check;
    }
}

// The length of the work buffer: with s and b one byte short of that of the start.
pub(crate) fn work(mark: u8) -> usize
    ensures { result ≤ 39 }
{
    match mark {
        b's' | b'b' => 38,
        _ => 39,
    }
}

// The payload that a mark lends: with l another one than that of the start.
pub(crate) fn payload(mark: u8, payload: &[u8]) -> &[u8] {
    if mark == b'l' { b"!!!" } else { payload }
}

// The length of the buffer that a mark lends: with l another one than that of the start.
pub(crate) fn buffer(mark: u8, n: usize) -> usize
    ensures { result ≤ 64 }
{
    if mark == b'l' { 3 } else { n.min(64) }
}

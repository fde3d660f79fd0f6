// The lines that the bench program prints: upper-case hexadecimal and a line feed, laid at the front of a lent slice.
#![tactic(auto)]

ghost use Rattle.std.specs.Prelude.{◌≡◌, ◌++◌, ◌+◌, ◌*◌, ◌≤◌, length};
ghost use Rattle.hexadecimal.specs.Line.{feed_bytes};
ghost use Rattle.printing.specs.Printing.{printed_of, out_printed, write_said, read_said, end_said, cut_said};

use engine::budget::Tally;
use protocol::error::Answer;
use requests::request::MOST_BYTES;

// The bytes of an end before its buffer: FF, the answer, its detail, the waits and how long they were.
const END_BYTES: usize = 12;

// The longest line is the end of a call with the longest buffer, as digits, and a line feed.
pub const LONGEST_LINE: usize = (END_BYTES + MOST_BYTES) * 2 + 1;

// The digits of two parts and a line feed; how many bytes these are.
fn lay(head: &[u8], body: &[u8], out: &mut [u8]) -> usize
    requires { (length head.now + length body.now) * 2 + 1 ≤ length out.old }
    ensures { (result ≡ length (feed_bytes (head.now ++ body.now))) × (out.new ≡ out_printed (head.now ++ body.now) out.old) }
{
    let a = head.len() * 2;
    hexadecimal::encode(head, out);
    hexadecimal::encode(body, &mut out[a..]);
    let b = a + body.len() * 2;
    out[b] = b'\n';
    b + 1
}

// A line of two parts; how many bytes are laid, 0 of a line that has no room.
// Stays: a count that callers add to what is laid before; as an Option each of them would write `unwrap_or(0)`.
fn line(head: &[u8], body: &[u8], out: &mut [u8]) -> usize
    ensures { (result ≡ printed_of (head.now ++ body.now) (length out.old)) × (out.new ≡ out_printed (head.now ++ body.now) out.old) }
{
    // Two digits for each byte, and one byte more.
    if head.len() + body.len() < out.len().div_ceil(2) {
        lay(head, body, out)
    } else {
        0
    }
}

// A write: 00 and the frame.
pub fn write(frame: &[u8], out: &mut [u8]) -> usize
    ensures { (result ≡ printed_of (write_said frame.now) (length out.old)) × (out.new ≡ out_printed (write_said frame.now) out.old) }
{
    line(&[0x00], frame, out)
}

// A read: 01, the command and a two-byte count.
pub fn read(command: u8, count: usize, out: &mut [u8]) -> usize
    ensures { (result ≡ printed_of (read_said command count) (length out.old)) × (out.new ≡ out_printed (read_said command count) out.old) }
{
    let count = count.to_le_bytes();
    line(&[0x01, command, count[0], count[1]], b"", out)
}

// The end: FF, the answer, its two-byte detail, the waits and their milliseconds in four bytes each, and a reading call's buffer.
pub fn end(answer: Answer, tally: Tally, buffer: &[u8], out: &mut [u8]) -> usize
    ensures { (result ≡ printed_of (end_said answer tally buffer.now) (length out.old)) × (out.new ≡ out_printed (end_said answer tally buffer.now) out.old) }
{
    let detail = answer.detail().to_le_bytes();
    let waits = tally.waits.to_le_bytes();
    let ms = tally.waited_ms.to_le_bytes();
    let head = [
        0xFFu8,
        answer.number(),
        detail[0],
        detail[1],
        waits[0],
        waits[1],
        waits[2],
        waits[3],
        ms[0],
        ms[1],
        ms[2],
        ms[3],
    ];
    line(&head, buffer, out)
}

// No outcomes left: FE, the waits and their milliseconds in four bytes each, and a reading call's buffer.
pub fn cut(tally: Tally, buffer: &[u8], out: &mut [u8]) -> usize
    ensures { (result ≡ printed_of (cut_said tally buffer.now) (length out.old)) × (out.new ≡ out_printed (cut_said tally buffer.now) out.old) }
{
    let waits = tally.waits.to_le_bytes();
    let ms = tally.waited_ms.to_le_bytes();
    let head = [
        0xFEu8, waits[0], waits[1], waits[2], waits[3], ms[0], ms[1], ms[2], ms[3],
    ];
    line(&head, buffer, out)
}

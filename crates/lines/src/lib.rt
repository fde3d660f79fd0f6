// Input that comes in chunks of any size, put together to lines. A line that lies whole in a chunk is not copied.
#![tactic(auto)]

ghost use Rattle.std.specs.Prelude.{◌≡◌, length, drop};
ghost use Rattle.lines.specs.Lines.{before_feed, took_by, kept_of, took_of, held_after};

use protocol::bytes;

// What a chunk brings.
#[derive(Clone, Copy, Debug, PartialEq, Eq)]
pub enum Took {
    // A line lies whole in the chunk, so many bytes from the place it was read from; the chunk goes on at `next`, and nothing is held.
    Here { len: usize, next: usize },
    // A line is whole: so many bytes of it are held, and the chunk goes on at `next`.
    Held { len: usize, next: usize },
    // The chunk is used up, and so many bytes of a line are held.
    More(usize),
    // A line has no room in what holds it; as much of it is held as has room.
    Long,
}

// How many bytes of a chunk from `from` on come before a line feed, or before its end.
fn run(chunk: &[u8], from: usize) -> usize
    ensures { result ≡ length (before_feed (drop from chunk.now)) }
{
    let rest = bytes::block(chunk, from, chunk.len());
    rest.iter().position(|b| *b == b'\n').unwrap_or(rest.len())
}

// What n bytes of a chunk of `size` from `from` on come to, beside the `have` that are held.
fn judge(size: usize, from: usize, n: usize, room: usize, have: usize) -> Took
    ensures { result ≡ took_by size from n room have }
{
    if room < have || room - have < n {
        return Took::Long;
    }
    if size.saturating_sub(from) <= n {
        return Took::More(have + n);
    }
    let next = from + n + 1;
    if have == 0 {
        Took::Here { len: n, next }
    } else {
        Took::Held {
            len: have + n,
            next,
        }
    }
}

// Puts the bytes of a line after the `have` that are held, as far as there is room, unless the line lies whole in its chunk.
fn keep(took: Took, line: &[u8], held: &mut [u8], have: usize)
    ensures { held.new ≡ kept_of took line.now held.old have }
{
    if !matches!(took, Took::Here { .. }) {
        bytes::store_block(held, have, line, line.len());
    }
}

// The bytes of a chunk from `from` on, up to a line feed or its end, beside the `have` bytes of a line that are held.
// Stays: what holds a line is lent, of a fixed size, and outlives the run; a count beside it says how much of it is filled (no heap).
pub fn take(chunk: &[u8], from: usize, held: &mut [u8], have: usize) -> Took
    ensures { (result ≡ took_of chunk.now from (length held.old) have) × (held.new ≡ held_after chunk.now from held.old have) }
{
    let n = run(chunk, from);
    let took = judge(chunk.len(), from, n, held.len(), have);
    keep(took, bytes::block(chunk, from, n), held, have);
    took
}

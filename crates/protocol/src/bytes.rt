// Parts of slices, and what is copied from one to another.
ghost use Rattle.std.specs.Prelude.{◌≡◌, ◌≤◌, length, take, drop};
ghost use Rattle.protocol.specs.Bytes.{over, block_in, stored_at, send_of, blocks_of, block_start};

use crate::consts::LARGEST_DF_BLOCK_SIZE_BYTES;

// How many blocks of 32 so many bytes have, the last perhaps short.
pub fn blocks(len: usize) -> usize
    ensures { result ≡ blocks_of len }
{
    len.div_ceil(LARGEST_DF_BLOCK_SIZE_BYTES)
}

// Where block i of 32 bytes starts.
pub fn block_start(i: u32) -> usize
    ensures { result ≡ block_start i }
{
    i as usize * LARGEST_DF_BLOCK_SIZE_BYTES
}

// The first n bytes of a slice, or all of it where it has fewer.
pub fn front(s: &[u8], n: usize) -> &[u8]
    ensures { result.now ≡ take n s.now }
{
    &s[..n.min(s.len())]
}

// What follows the first `at` bytes of a slice.
pub fn rest(s: &[u8], at: usize) -> &[u8]
    ensures { result.now ≡ drop at s.now }
{
    &s[at.min(s.len())..]
}

// Up to `most` bytes of a slice from `at` on.
pub fn block(s: &[u8], at: usize, most: usize) -> &[u8]
    ensures { result.now ≡ take most (drop at s.now) }
{
    front(rest(s, at), most)
}

// The part to send, n bytes long: what was built in the work buffer, or, of a plain write with `pec_write` off, the caller's own bytes.
pub fn to_send<'a>(payload: &'a [u8], work: &'a [u8], built: bool, n: usize) -> &'a [u8]
    ensures { result.now ≡ send_of payload.now work.now built n }
{
    front(if built { work } else { payload }, n)
}

// All of src over the front of dst.
pub(crate) fn copy(dst: &mut [u8], src: &[u8])
    requires { length src.now ≤ length dst.old }
    ensures { dst.new ≡ over src.now dst.old }
{
    dst[..src.len()].copy_from_slice(src);
}

// A block over the front of what is lent: at most `most` bytes of it, and no more than there is room for.
pub fn copy_block(buf: &mut [u8], block: &[u8], most: usize)
    ensures { buf.new ≡ block_in most block.now buf.old }
{
    let n = most.min(block.len().min(buf.len()));
    copy(buf, front(block, n));
}

// A block into the caller's buffer: what follows the `at` bytes already read is lent to the block copier.
// Stays: the caller's buffer, from its middle onward, is document 01's form.
pub fn store_block(buf: &mut [u8], at: usize, block: &[u8], most: usize)
    ensures { buf.new ≡ stored_at at most block.now buf.old }
{
    if at <= buf.len() {
        copy_block(&mut buf[at..], block, most);
    }
}

// What a reading call is made of: a head frame, perhaps, and the reads that follow it.
ghost use Rattle.std.specs.Prelude.{◌≡◌, length};
ghost use Rattle.protocol.specs.Frame.{laid_of, work_laid};
ghost use Rattle.reading.specs.Parts.{has_head, head_bytes, first_address, reads_side, read_count, left_of, block_ask, ask_of, most_of};

use protocol::common::Side;
use protocol::consts::{LARGEST_DF_BLOCK_SIZE_BYTES, MAC_CMD};
use protocol::frame::MacCommand;
use protocol::reply::Ask;
use protocol::{bytes, frame};

// The frame that opens a reading call, and opens it again after a failure.
// Stays: a plain read is one of four heads, by its name.
#[derive(Clone, Copy, Debug, PartialEq, Eq)]
pub enum Head {
    // None: a plain read.
    Bare,
    // A command's address.
    Command(u32),
    // A MAC command with a fixed pair.
    Mac(MacCommand),
    // The address of the data-flash block that is due, the first one at this address.
    DataFlash(u16),
}

impl Head {
    // Whether there is a frame at all.
    pub(crate) fn some(self) -> bool
        ensures { result ≡ has_head self }
    {
        match self {
            Head::Bare => false,
            _ => true,
        }
    }

    // The first address of the data flash that is read; 0 where none is.
    pub(crate) fn first_address(self) -> u16
        ensures { result ≡ first_address self }
    {
        match self {
            Head::DataFlash(start) => start,
            _ => 0,
        }
    }

    // The frame, laid at the front of the work buffer; that of data flash for block i.
    // Stays: an arm for each kind of frame, as in `writing`.
    pub(crate) fn lay(self, i: u32, work: &mut [u8], pec: bool) -> Option<usize>
        ensures { (result ≡ laid_of pec (head_bytes self i) (length work.old)) × (work.new ≡ work_laid pec (head_bytes self i) work.old) }
    {
        match self {
            Head::Bare => frame::lay_plain(work, b"", pec),
            Head::Command(address) => frame::lay_command(work, address, pec),
            Head::Mac(command) => frame::lay_fixed(work, command, b"", pec),
            Head::DataFlash(start) => {
                frame::lay_number(work, start as usize + bytes::block_start(i), b"", pec)
            }
        }
    }
}

// The reads of a call.
// Stays: three ways to read, and no value that is perhaps missing.
#[derive(Clone, Copy, Debug, PartialEq, Eq)]
pub enum Reads {
    // None: a command with no output.
    Nothing,
    // One, which asks for this.
    Once(Ask),
    // One for each block of 32 bytes of data flash. With a PEC each asks for a whole block, otherwise for what is left.
    Blocks(bool),
}

// How many bytes are left of a length after i blocks.
fn left(len: usize, i: u32) -> usize
    ensures { result ≡ left_of len i }
{
    len.saturating_sub(bytes::block_start(i))
}

// What a block of data flash asks for where so many bytes are left.
fn block_ask(left: usize, pec: bool) -> Ask
    ensures { result ≡ block_ask left pec }
{
    if pec {
        Ask::mac(MAC_CMD, LARGEST_DF_BLOCK_SIZE_BYTES, true)
    } else {
        Ask::mac(MAC_CMD, LARGEST_DF_BLOCK_SIZE_BYTES.min(left), false)
    }
}

impl Reads {
    // The side of a call with these reads: one that reads nothing is a write.
    pub(crate) fn side(self) -> Side
        ensures { result ≡ reads_side self }
    {
        match self {
            Reads::Nothing => Side::Write,
            _ => Side::Read,
        }
    }

    // How many reads there are for a buffer of so many bytes.
    // Stays: how many reads by their kind, as `Frames::count` has frames by theirs.
    pub(crate) fn count(self, len: usize) -> usize
        ensures { result ≡ read_count self len }
    {
        match self {
            Reads::Nothing => 0,
            Reads::Once(_) => 1,
            Reads::Blocks(_) => bytes::blocks(len),
        }
    }

    // What read i asks for.
    pub(crate) fn ask(self, len: usize, i: u32) -> Ask
        ensures { result ≡ ask_of self len i }
    {
        match self {
            Reads::Nothing => Ask::mac(MAC_CMD, 0, false),
            Reads::Once(ask) => ask,
            Reads::Blocks(pec) => block_ask(left(len, i), pec),
        }
    }

    // How many bytes of a reply are handed over at the most.
    pub(crate) fn most(self, len: usize) -> usize
        ensures { result ≡ most_of self len }
    {
        match self {
            Reads::Nothing => 0,
            Reads::Once(_) => len,
            Reads::Blocks(_) => LARGEST_DF_BLOCK_SIZE_BYTES,
        }
    }
}

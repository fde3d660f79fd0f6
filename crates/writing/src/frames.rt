// Which frames a writing call sends.
ghost use Rattle.std.specs.Prelude.{◌≡◌, length};
ghost use Rattle.protocol.specs.Frame.{laid_of, work_laid};
ghost use Rattle.writing.specs.Frames.{is_plain, is_flash, first_address, frame_count, half_bytes, block_bytes, info_cbytes, bytes_at};

use protocol::consts::LARGEST_DF_BLOCK_SIZE_BYTES;
use protocol::frame::MacCommand;
use protocol::{bytes, frame};

// The frames of a writing call.
#[derive(Clone, Copy, Debug, PartialEq, Eq)]
pub enum Frames {
    // One: the bytes that the caller built.
    Plain,
    // One: a register's or a buffer's address and the payload.
    Register(u8),
    // One: manufacturer info.
    MfgInfo,
    // One: a MAC command with a fixed pair and the payload.
    Mac(MacCommand),
    // Two: the halves of an access key.
    AccessKey { lower: u16, upper: u16 },
    // Three: the halves of an access key, then manufacturer info C.
    MfgInfoC { lower: u16, upper: u16 },
    // One for each block of 32 bytes, at its own address.
    DataFlash(u16),
}

// Half i of an access key: the lower one first.
// Stays: work buffer, payload and PEC come from three owners, as in `protocol::frame`.
fn lay_half(work: &mut [u8], lower: u16, upper: u16, i: u32, pec: bool) -> Option<usize>
    ensures { (result ≡ laid_of pec (half_bytes lower upper i) (length work.old)) × (work.new ≡ work_laid pec (half_bytes lower upper i) work.old) }
{
    let half = if i == 0 { lower } else { upper };
    frame::lay_number(work, half as usize, b"", pec)
}

// Block i of a payload, at its own address.
fn lay_block(work: &mut [u8], start: u16, payload: &[u8], i: u32, pec: bool) -> Option<usize>
    ensures { (result ≡ laid_of pec (block_bytes start i payload.now) (length work.old)) × (work.new ≡ work_laid pec (block_bytes start i payload.now) work.old) }
{
    let at = bytes::block_start(i);
    let block = bytes::block(payload, at, LARGEST_DF_BLOCK_SIZE_BYTES);
    frame::lay_number(work, start as usize + at, block, pec)
}

// Frame i of manufacturer info C: a half of its access key, then, past both, its own frame.
fn lay_info_c(
    work: &mut [u8],
    lower: u16,
    upper: u16,
    payload: &[u8],
    i: u32,
    pec: bool,
) -> Option<usize>
    ensures { (result ≡ laid_of pec (info_cbytes lower upper i payload.now) (length work.old)) × (work.new ≡ work_laid pec (info_cbytes lower upper i payload.now) work.old) }
{
    if i < 2 {
        lay_half(work, lower, upper, i, pec)
    } else {
        frame::lay_fixed(work, MacCommand::MfgInfoC, payload, pec)
    }
}

impl Frames {
    // Whether the caller built the frame.
    pub(crate) fn plain(self) -> bool
        ensures { result ≡ is_plain self }
    {
        matches!(self, Frames::Plain)
    }

    // Whether the frames write data flash.
    pub(crate) fn flash(self) -> bool
        ensures { result ≡ is_flash self }
    {
        matches!(self, Frames::DataFlash(_))
    }

    // The first address of the data flash that the frames write; 0 where they write none.
    // Stays: 0 where there is none, as the definition has it; so in `reading`.
    pub(crate) fn first_address(self) -> u16
        ensures { result ≡ first_address self }
    {
        match self {
            Frames::DataFlash(start) => start,
            _ => 0,
        }
    }

    // How many frames there are for a payload of so many bytes.
    pub(crate) fn count(self, len: usize) -> usize
        ensures { result ≡ frame_count self len }
    {
        match self {
            Frames::AccessKey { .. } => 2,
            Frames::MfgInfoC { .. } => 3,
            Frames::DataFlash(_) => bytes::blocks(len),
            _ => 1,
        }
    }

    // Frame i, laid at the front of the work buffer.
    // Stays: an arm for each kind of frame: a table of functions would hide which takes what.
    pub(crate) fn lay(self, payload: &[u8], i: u32, work: &mut [u8], pec: bool) -> Option<usize>
        ensures { (result ≡ laid_of pec (bytes_at self i payload.now) (length work.old)) × (work.new ≡ work_laid pec (bytes_at self i payload.now) work.old) }
    {
        match self {
            Frames::Plain => frame::lay_plain(work, payload, pec),
            Frames::Register(address) => frame::lay_register(work, address, payload, pec),
            Frames::MfgInfo => frame::lay_info(work, payload, pec),
            Frames::Mac(command) => frame::lay_fixed(work, command, payload, pec),
            Frames::AccessKey { lower, upper } => lay_half(work, lower, upper, i, pec),
            Frames::MfgInfoC { lower, upper } => lay_info_c(work, lower, upper, payload, i, pec),
            Frames::DataFlash(start) => lay_block(work, start, payload, i, pec),
        }
    }
}

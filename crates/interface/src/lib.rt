// The calls of interface.rs, each a plan that one of the two engines carries out: plain writes, registers, commands, buffers.
#![tactic(auto)]

ghost use Rattle.std.specs.Prelude.{◌≡◌};
ghost use Rattle.interface.specs.Plans.{plain_limit, write_with_retries, write_register, read_register, command_reads, dispatch_command, read_buffer, write_buffer};

use engine::limit::Limit;
use protocol::common::Config;
use protocol::consts::{LARGEST_BUF_SIZE_BYTES, LARGEST_PLAIN_SIZE_BYTES, LARGEST_REG_SIZE_BYTES};
use protocol::reply::Ask;
use reading::call::ReadPlan;
use reading::parts::{Head, Reads};
use writing::call::WritePlan;
use writing::frames::Frames;

// What a plain write asks of its length: with a PEC it has to leave room for it.
fn plain_limit(pec_write: bool) -> Limit
    ensures { result ≡ plain_limit pec_write }
{
    if pec_write {
        Limit::AtMost(LARGEST_PLAIN_SIZE_BYTES)
    } else {
        Limit::Free
    }
}

// The plain write: a frame that the caller built, sent from the caller's own bytes where no PEC goes after it.
pub fn write_with_retries(config: Config) -> WritePlan
    ensures { result ≡ write_with_retries config }
{
    WritePlan::new(config, plain_limit(config.pec_write), Frames::Plain)
}

// Writes a register of at most 32 bytes.
pub fn write_register(config: Config, address: u8) -> WritePlan
    ensures { result ≡ write_register config address }
{
    WritePlan::new(
        config,
        Limit::AtMost(LARGEST_REG_SIZE_BYTES),
        Frames::Register(address),
    )
}

// Reads a register of at most 32 bytes, here n.
pub fn read_register(config: Config, address: u8, n: usize) -> ReadPlan
    ensures { result ≡ read_register config address n }
{
    ReadPlan::plain(
        config,
        Limit::AtMost(LARGEST_REG_SIZE_BYTES),
        Ask::plain(address, n, config.pec_read),
    )
}

// What is read after a command's frame: nothing where there is no output, so that it is a write. The frame's first byte is the read's command.
fn command_reads(config: Config, address: u32, output: usize) -> Reads
    ensures { result ≡ command_reads config address output }
{
    if output == 0 {
        Reads::Nothing
    } else {
        let [_, _, first, _] = address.to_le_bytes();
        Reads::Once(Ask::mac(first, output, config.pec_read))
    }
}

// Dispatches a command with so many bytes of input, and reads so many of output. Input has to be empty.
pub fn dispatch_command(config: Config, address: u32, input: usize, output: usize) -> ReadPlan
    ensures { result ≡ dispatch_command config address input output }
{
    ReadPlan::new(
        config,
        Limit::Command(input),
        Head::Command(address),
        command_reads(config, address, output),
    )
}

// Reads a buffer of any length, here n, never with a PEC.
pub fn read_buffer(config: Config, address: u8, n: usize) -> ReadPlan
    ensures { result ≡ read_buffer config address n }
{
    ReadPlan::plain(config, Limit::Free, Ask::plain(address, n, false))
}

// Writes a buffer of at most 33 bytes.
// Stays: the Rust's two calls by name, which differ in their limit.
pub fn write_buffer(config: Config, address: u8) -> WritePlan
    ensures { result ≡ write_buffer config address }
{
    WritePlan::new(
        config,
        Limit::AtMost(LARGEST_BUF_SIZE_BYTES),
        Frames::Register(address),
    )
}

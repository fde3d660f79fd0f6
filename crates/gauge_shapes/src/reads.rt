// Reads of every number.
use crate::seen::{FATES, POINTERS, Seen};
use model_gauge::gauge::{FLASH_BYTES, Fate, Gauge, REPLY_BYTES};
use protocol::bytes;
use std::io;

// A read goes to the gauge, which may reply.
fn ask(
    fate: Fate,
    command: u8,
    count: usize,
    pointer: u16,
    flash: &[u8; FLASH_BYTES],
    seen: &mut Seen,
) {
    let mut reply = [0u8; REPLY_BYTES];
    let effect = Gauge { pointer }.read(fate, command, count, flash, &mut reply);
    seen.transfer(effect);
    seen.bytes(bytes::front(&reply, effect.replied));
}

// Of 0 to 40 bytes, by each fate.
fn numbers(command: u8, pointer: u16, flash: &[u8; FLASH_BYTES]) -> Seen {
    let mut seen = Seen::default();
    for count in 0..41usize {
        for fate in FATES {
            ask(fate, command, count, pointer, flash, &mut seen);
        }
    }
    seen
}

// The line of each command, the gauge's and two others, and each pointer.
pub(crate) fn all(rt: &impl Print, flash: &[u8; FLASH_BYTES]) -> io::Result<()> {
    for command in [0x44, 0x43, 0x45] {
        for pointer in POINTERS {
            let seen = numbers(command, pointer, flash);
            println!(rt; "reads {command:02x} at {pointer:04x}: {seen}")?;
        }
    }
    Ok(())
}

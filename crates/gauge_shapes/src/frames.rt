// Frames of every shape.
use crate::seen::{FATES, POINTERS, Seen};
use fixture::flash;
use model_gauge::gauge::{FLASH_BYTES, Fate, Gauge};
use protocol::bytes;
use std::io;

// How much of each end of the flash the blocks lie in.
const END: usize = 64;

// Where the end of the flash begins.
const LAST: usize = FLASH_BYTES - END;

// Both ends of the window, and 4015, where the PEC of 44, a count of 1 and the low byte is the high byte.
const ADDRESSES: [u16; 6] = [0x3FFF, 0x4000, 0x4015, 0x5FE0, 0x5FFF, 0x6000];

// A frame goes to the gauge, by one fate and with the pointer at one address; its flash is first as it was.
// Stays: each of these varies one thing and hands on the rest; as methods of a struct of both they would read the same.
fn send(fate: Fate, frame: &[u8], pointer: u16, old: &[u8; FLASH_BYTES], seen: &mut Seen) {
    let mut flash = *old;
    seen.transfer(Gauge { pointer }.write(fate, frame, &mut flash));
    seen.bytes(bytes::front(&flash, END));
    seen.bytes(bytes::block(&flash, LAST, END));
    seen.kept(bytes::block(&flash, END, LAST - END) == bytes::block(old, END, LAST - END));
}

// By each fate, with each pointer.
fn fates(frame: &[u8], old: &[u8; FLASH_BYTES], seen: &mut Seen) {
    for fate in FATES {
        for pointer in POINTERS {
            send(fate, frame, pointer, old, seen);
        }
    }
}

// From one byte too few to three beyond; the command and the count itself are not counted.
fn lengths(frame: &[u8], count: u8, old: &[u8; FLASH_BYTES], seen: &mut Seen) {
    for more in 1..6usize {
        fates(bytes::front(frame, usize::from(count) + more), old, seen);
    }
}

// The byte at a place is the PEC of those before it, or a number beside it.
// Stays: the byte is made of those before it, which lie in the same buffer.
fn close(frame: &mut [u8], at: usize, turned: u8) {
    let pec = smbus_pec::pec(smbus_pec::pec(0, b"\x16"), bytes::front(frame, at));
    if at < frame.len() {
        frame[at] = pec.wrapping_add(turned);
    }
}

// A command, a count, an address and bytes by their place; each of the three beyond what is counted is the PEC of all before it, or a number beside it.
fn shaped(command: u8, count: u8, address: u16, turned: u8) -> [u8; 48] {
    let [low, high] = address.to_le_bytes();
    let mut frame = [0u8; 48];
    flash::fill(&mut frame);
    frame[..4].copy_from_slice(&[command, count, low, high]);
    for beyond in 2..5usize {
        close(&mut frame, usize::from(count) + beyond, turned);
    }
    frame
}

// With a right PEC and a wrong one.
fn closed(command: u8, count: u8, address: u16, old: &[u8; FLASH_BYTES], seen: &mut Seen) {
    for turned in 0..2u8 {
        lengths(&shaped(command, count, address, turned), count, old, seen);
    }
}

// At each address; and its line.
fn row(rt: &impl Print, command: u8, count: u8, old: &[u8; FLASH_BYTES]) -> io::Result<()> {
    let mut seen = Seen::default();
    for address in ADDRESSES {
        closed(command, count, address, old, &mut seen);
    }
    let strays = seen.strays;
    println!(rt; "frames {command:02x} count {count}: {seen} strays {strays}")
}

// Every count byte up to 40, and two of other commands.
pub(crate) fn all(rt: &impl Print, old: &[u8; FLASH_BYTES]) -> io::Result<()> {
    for count in 0..41u8 {
        row(rt, 0x44, count, old)?;
    }
    for command in [0x43, 0x45] {
        for count in [2, 10] {
            row(rt, command, count, old)?;
        }
    }
    Ok(())
}

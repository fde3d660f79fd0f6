// Prints the packet error codes of many strings: four of each length from 0 to 64, and four of 8,192 bytes, cut one after the other from one
// pseudo-random sequence of bytes. A line has a string's length, its code by `pec`, which goes a bit at a time, and its code by the table. The file
// `stdout` comes from tests/pec_vectors.py, a program of its own that goes by the SMBus rule.
#![tactic(auto)]

use std::io;

// The number after x in the sequence, whose highest byte is the sequence's next.
fn next(x: u32) -> u32 {
    x.wrapping_mul(1103515245).wrapping_add(12345)
}

// Fills the slice with the sequence's next bytes, and answers where the sequence then stands.
fn fill(x: u32, s: &mut [u8]) -> u32 {
    let mut at = x;
    for byte in s.iter_mut() {
        at = next(at);
        let [highest, _, _, _] = at.to_be_bytes();
        *byte = highest;
    }
    at
}

// Prints a string's line. That both forms give the same code is proved: `expect` requires it.
fn line(rt: &impl Print, s: &[u8]) -> io::Result<()> {
    let code = smbus_pec::pec(0, s);
    let by_table = smbus_pec::pec_table(0, s);
    check::expect(code == by_table);
    println!(rt; "{} {code:02x} {by_table:02x}", s.len())
}

// Prints the lines of four strings of the slice's length, and answers where the sequence then stands. A write that fails is told nowhere, and the next line
// is tried all the same.
fn four(rt: &impl Print, x: u32, s: &mut [u8]) -> u32 {
    let mut at = x;
    for _ in 0..4u8 {
        at = fill(at, s);
        let _ = line(rt, s);
    }
    at
}

// The lines of each length.
fn all(rt: &impl Print) {
    let mut space = [0u8; 8192];
    let mut x = 1;
    for n in 0..65usize {
        x = four(rt, x, &mut space[..n]);
    }
    four(rt, x, &mut space);
}

fn main(rt: HostRuntime) {
    all(&rt);
}

// The rows: a call of a kind, with what it is lent. A payload and a buffer are of the same length, but for a command's: a call looks at one of them.
use crate::say::{Lent, Shown, Stand};
use calls::call::Call;
use calls::kind::Kind;
use engine::bus::{Outcome, Transfer};
use fixture::settings::settings;
use protocol::bytes;
use std::io;

// Data flash from an address on, with n bytes lent, a work buffer and a PEC setting.
// Stays: rows of four figures; as a struct each row would name its fields.
const WINDOW: [(u16, usize, usize, bool); 9] = [
    (0x3FFF, 1, 39, true),
    (0x3FFF, 1, 38, true),
    (0x4000, 1, 39, true),
    (0x5FFF, 1, 39, false),
    (0x5FFF, 1, 39, true),
    (0x5FFF, 2, 39, true),
    (0xFFFF, 0, 39, true),
    (0xFFFF, 0, 38, true),
    (0xFFFF, 2, 39, true),
];

// Command 443500 with so many bytes of input, and n of output: with input it is none.
const COMMANDS: [(usize, usize, usize, bool); 10] = [
    (0, 32, 39, true),
    (0, 33, 39, true),
    (32, 1, 39, true),
    (33, 1, 39, true),
    (1, 1, 39, true),
    (1, 33, 39, true),
    (1, 1, 38, true),
    (33, 33, 38, true),
    (0, 0, 39, false),
    (0, 0, 39, true),
];

// What becomes of a transfer: a frame is acknowledged, a read times out, which ends a call that has no retries.
fn outcome(transfer: Transfer) -> Outcome {
    match transfer {
        Transfer::Write(_) => Outcome::Acknowledged,
        _ => Outcome::Timeout,
    }
}

// The call after its transfer; one that has ended stays as it is.
fn step(rt: &impl Print, call: Call, payload: &[u8], buffer: &mut [u8]) -> io::Result<Call> {
    let mut work = [0u8; 39];
    let transfer = call.next(payload, buffer, &mut work).transfer;
    let frame = call.to_send(payload, &work, transfer.sent());
    print!(rt; "{}", Shown { transfer, frame })?;
    Ok(
        call.report(outcome(transfer), b"", payload, buffer, &work)
            .unwrap_or_else(|(_, same)| same),
    )
}

// A call of a kind with a payload of so many bytes, whose title is said: how it stands, and its first transfers, of which three are frames at most. It has no retries.
fn start(rt: &impl Print, kind: Kind, payload: usize, lent: Lent) -> io::Result<()> {
    let source = [0xDDu8; 40];
    let mut room = [0u8; 40];
    let sent = bytes::front(&source, payload);
    let n = lent.n.min(40);
    let mut call = Call::start(
        kind,
        settings(0, lent.pec),
        sent,
        bytes::front(&source, n),
        bytes::front(&source, lent.work),
    );
    print!(rt; " : {}", Stand(call.phase()))?;
    for _ in 0..3u8 {
        call = step(rt, call, sent, &mut room[..n])?;
    }
    println!(rt)
}

// A call of a kind, with each of these.
fn each(rt: &impl Print, name: &str, kind: Kind, rows: &[(usize, usize, bool)]) -> io::Result<()> {
    for &(n, work, pec) in rows {
        let lent = Lent { n, work, pec };
        print!(rt; "{name} {lent}")?;
        start(rt, kind, n, lent)?;
    }
    Ok(())
}

// A call of at most so many bytes.
// Stays: each row has its own lengths, and hands on the rest.
fn limited(rt: &impl Print, name: &str, kind: Kind, limit: u8) -> io::Result<()> {
    let most = usize::from(limit);
    let rows = [
        (most, 39, true),
        (most + 1, 39, true),
        (most + 1, 38, true),
        (0, 39, false),
        (0, 39, true),
    ];
    each(rt, name, kind, &rows)
}

// A call of one length alone, which is one more than this.
fn exact(rt: &impl Print, name: &str, kind: Kind, below: u8) -> io::Result<()> {
    let short = usize::from(below);
    let rows = [
        (short, 39, true),
        (short + 1, 39, true),
        (short + 2, 39, true),
        (short + 1, 38, true),
    ];
    each(rt, name, kind, &rows)
}

// An access key, which has no payload.
fn access(rt: &impl Print, name: &str, kind: Kind) -> io::Result<()> {
    each(rt, name, kind, &[(0, 39, true), (0, 38, true)])
}

// The writes of registers and buffers. Plain ones have no limit without a PEC.
fn writes(rt: &impl Print) -> io::Result<()> {
    let plain = [
        (38, 39, true),
        (39, 39, true),
        (39, 39, false),
        (39, 38, true),
        (0, 39, false),
        (0, 39, true),
    ];
    each(rt, "write_with_retries", Kind::WriteWithRetries, &plain)?;
    limited(rt, "write_register", Kind::WriteRegister(1), 32)?;
    limited(rt, "write_buffer", Kind::WriteBuffer(1), 33)
}

// The writes of keys and the override.
fn key_writes(rt: &impl Print) -> io::Result<()> {
    let voltage = Kind::WriteChargingVoltageOverride;
    exact(rt, "write_security_keys", Kind::WriteSecurityKeys, 27)?;
    exact(
        rt,
        "write_authentication_key",
        Kind::WriteAuthenticationKey,
        15,
    )?;
    exact(rt, "write_charging_voltage_override", voltage, 9)
}

// Access keys and manufacturer info.
fn access_writes(rt: &impl Print) -> io::Result<()> {
    let lower = 1;
    let upper = 2;
    access(rt, "send_access_key", Kind::SendAccessKey { lower, upper })?;
    access(rt, "unseal_fg", Kind::UnsealFg { lower, upper })?;
    limited(
        rt,
        "write_mfg_info_c",
        Kind::WriteMfgInfoC { lower, upper },
        32,
    )?;
    limited(rt, "write_mfg_info", Kind::WriteMfgInfo, 32)
}

// Data flash in the window and outside, by the call that is made of an address.
fn window<F: Fn(u16) -> Kind>(rt: &impl Print, name: &str, kind: F) -> io::Result<()>
    requires { F.IsAlwaysCallable kind }
{
    for (address, n, work, pec) in WINDOW {
        let lent = Lent { n, work, pec };
        print!(rt; "{name} {address:04x} {lent}")?;
        start(rt, kind(address), n, lent)?;
    }
    Ok(())
}

// The reads of registers and buffers: the latter have no limit.
fn reads(rt: &impl Print) -> io::Result<()> {
    let unlimited = [
        (40, 39, true),
        (40, 38, true),
        (0, 39, false),
        (0, 39, true),
    ];
    limited(rt, "read_register", Kind::ReadRegister(1), 32)?;
    each(rt, "read_buffer", Kind::ReadBuffer(1), &unlimited)
}

// Commands.
fn commands(rt: &impl Print) -> io::Result<()> {
    for (input, n, work, pec) in COMMANDS {
        let lent = Lent { n, work, pec };
        print!(rt; "dispatch_command input {input}, output {lent}")?;
        start(rt, Kind::DispatchCommand(0x443500), input, lent)?;
    }
    Ok(())
}

// The reads of keys, the override and manufacturer info.
fn key_reads(rt: &impl Print) -> io::Result<()> {
    let voltage = Kind::ReadChargingVoltageOverride;
    exact(rt, "read_security_keys", Kind::ReadSecurityKeys, 27)?;
    exact(
        rt,
        "read_authentication_key",
        Kind::ReadAuthenticationKey,
        15,
    )?;
    exact(rt, "read_charging_voltage_override", voltage, 9)?;
    limited(rt, "read_mfg_info_c", Kind::ReadMfgInfoC, 32)?;
    limited(rt, "read_mfg_info", Kind::ReadMfgInfo, 33)
}

// Everything.
pub(crate) fn all(rt: &impl Print) -> io::Result<()> {
    writes(rt)?;
    key_writes(rt)?;
    access_writes(rt)?;
    window(rt, "write_dataflash", Kind::WriteDataflash)?;
    reads(rt)?;
    commands(rt)?;
    key_reads(rt)?;
    window(rt, "read_dataflash", Kind::ReadDataflash)
}

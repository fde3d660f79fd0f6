// The rows: a call of a kind, with the length of its payload or of its buffer.
use crate::run::Lent::{Buffer, Payload};
use crate::run::{Lent, row};
use calls::kind::Kind;
use std::io;

// The calls that write, and how long a payload each is lent.
const WRITES: [(&str, Kind, Lent); 11] = [
    // Plain, register and buffer writes.
    ("write_with_retries", Kind::WriteWithRetries, Payload(2)),
    ("write_register", Kind::WriteRegister(0x12), Payload(2)),
    ("write_buffer", Kind::WriteBuffer(0x23), Payload(2)),
    // Keys and the override.
    ("write_security_keys", Kind::WriteSecurityKeys, Payload(28)),
    (
        "write_authentication_key",
        Kind::WriteAuthenticationKey,
        Payload(16),
    ),
    (
        "write_charging_voltage_override",
        Kind::WriteChargingVoltageOverride,
        Payload(10),
    ),
    // Access keys, under both names, manufacturer info and data flash.
    (
        "send_access_key",
        Kind::SendAccessKey {
            lower: 0x1234,
            upper: 0x5678,
        },
        Payload(0),
    ),
    (
        "unseal_fg",
        Kind::UnsealFg {
            lower: 0x1234,
            upper: 0x5678,
        },
        Payload(0),
    ),
    (
        "write_mfg_info_c",
        Kind::WriteMfgInfoC {
            lower: 0x1234,
            upper: 0x5678,
        },
        Payload(2),
    ),
    ("write_mfg_info", Kind::WriteMfgInfo, Payload(2)),
    ("write_dataflash", Kind::WriteDataflash(0x4000), Payload(33)),
];

// The calls that read, and how long a buffer each is lent.
const READS: [(&str, Kind, Lent); 12] = [
    // Registers and buffers.
    ("read_register", Kind::ReadRegister(0x12), Buffer(2)),
    ("read_buffer", Kind::ReadBuffer(0x23), Buffer(2)),
    ("read_buffer, 0", Kind::ReadBuffer(0x12), Buffer(0)),
    // Commands.
    (
        "dispatch_command 443500, 2",
        Kind::DispatchCommand(0x443500),
        Buffer(2),
    ),
    (
        "dispatch_command FF010203, 0",
        Kind::DispatchCommand(0xFF010203),
        Buffer(0),
    ),
    (
        "dispatch_command 010203, 1",
        Kind::DispatchCommand(0x010203),
        Buffer(1),
    ),
    // Keys and the override.
    ("read_security_keys", Kind::ReadSecurityKeys, Buffer(28)),
    (
        "read_authentication_key",
        Kind::ReadAuthenticationKey,
        Buffer(16),
    ),
    (
        "read_charging_voltage_override",
        Kind::ReadChargingVoltageOverride,
        Buffer(10),
    ),
    // Manufacturer info and data flash.
    ("read_mfg_info_c", Kind::ReadMfgInfoC, Buffer(2)),
    ("read_mfg_info", Kind::ReadMfgInfo, Buffer(2)),
    ("read_dataflash", Kind::ReadDataflash(0x5FDF), Buffer(33)),
];

// Calls, with PEC on writes or on reads.
fn rows(rt: &impl Print, rows: &[(&str, Kind, Lent)], pec_write: bool) -> io::Result<()> {
    for &(title, kind, lent) in rows {
        row(rt, title, kind, lent, pec_write)?;
    }
    Ok(())
}

// Everything, without PEC and with it, and of those that write and those that read a call that is refused at its start.
pub(crate) fn all(rt: &impl Print) -> io::Result<()> {
    let write = Kind::WriteRegister(0x12);
    let read = Kind::ReadRegister(0x12);
    rows(rt, &WRITES, false)?;
    rows(rt, &WRITES, true)?;
    row(rt, "write_register, refused", write, Payload(33), true)?;
    rows(rt, &READS, true)?;
    rows(rt, &READS, false)?;
    row(rt, "read_register, refused", read, Buffer(33), false)
}

// Frames, each laid at the front of a lent work buffer with nothing else changed there. One builder serves them all. What comes back is the frame's length,
// or none where the work buffer has no room for it.
ghost use Rattle.std.specs.Prelude.{◌≡◌, ◌++◌, ◌+◌, ◌<◌, ◌≤◌, length, take, drop, ltb};
ghost use Rattle.protocol.specs.Bytes.{over};
ghost use Rattle.protocol.specs.Frame.{sealed, laid_of, work_laid, pair_of, mac_bytes, command_bytes, register_bytes, info_bytes, fixed_pair};

use crate::bytes;
use crate::consts::{
    AUTH_KEY_CMD, CHRG_VOLTAGE_OVERRIDE_CMD, MAC_CMD, MAC_CMD_ADDR_SIZE_BYTES, MFG_INFO_C_CMD,
    MFG_INFO_CMD, SECURITY_KEYS_CMD,
};

// The PEC of the byte 16 hex, with which every write opens.
const PEC_OF_WRITE_ADDRESS: u8 = 0x62;

// Bytes laid after the first `at`; how many there are then.
// Stays: the work buffer is the host's own, and how much of it is laid is known here alone (no heap, fixed memory).
fn push(work: &mut [u8], at: usize, bytes: &[u8]) -> usize
    requires { at + length bytes.now ≤ length work.old }
    ensures { (result ≡ at + length bytes.now) × (work.new ≡ take at work.old ++ over bytes.now (drop at work.old)) }
{
    bytes::copy(&mut work[at..], bytes);
    at + bytes.len()
}

// The PEC after the first n bytes, where it is on; how many there are then.
fn seal(work: &mut [u8], n: usize, pec: bool) -> usize
    requires { n < length work.old }
    ensures { (result ≡ length (sealed pec (take n work.old))) × (work.new ≡ over (sealed pec (take n work.old)) work.old) }
{
    if pec {
        work[n] = smbus_pec::pec(PEC_OF_WRITE_ADDRESS, &work[..n]);
        n + 1
    } else {
        n
    }
}

// Three parts one after the other, and the PEC.
fn build(work: &mut [u8], lead: &[u8], pair: &[u8], body: &[u8], pec: bool) -> usize
    requires { length lead.now + length pair.now + length body.now < length work.old }
    ensures { (result ≡ length (sealed pec (lead.now ++ pair.now ++ body.now))) × (work.new ≡ over (sealed pec (lead.now ++ pair.now ++ body.now)) work.old) }
{
    let led = push(work, 0, lead);
    let paired = push(work, led, pair);
    let whole = push(work, paired, body);
    seal(work, whole, pec)
}

// Whether parts of these lengths, and a PEC, have room in a work buffer.
fn room(work: usize, lead: usize, pair: usize, body: usize) -> bool
    ensures { result ≡ ltb (lead + pair + body) work }
{
    lead.saturating_add(pair).saturating_add(body) < work
}

// The one builder: a lead, a pair and the body, each perhaps empty, and the PEC where it is on.
// Stays: work buffer, body and PEC are from three owners (the host, its payload, the plan) and meet here: a struct would be made for one call.
fn lay(work: &mut [u8], lead: &[u8], pair: &[u8], body: &[u8], pec: bool) -> Option<usize>
    ensures { (result ≡ laid_of pec (lead.now ++ pair.now ++ body.now) (length work.old)) × (work.new ≡ work_laid pec (lead.now ++ pair.now ++ body.now) work.old) }
{
    if room(work.len(), lead.len(), pair.len(), body.len()) {
        Some(build(work, lead, pair, body, pec))
    } else {
        None
    }
}

// A frame that the caller built: its bytes as they are.
pub fn lay_plain(work: &mut [u8], body: &[u8], pec: bool) -> Option<usize>
    ensures { (result ≡ laid_of pec body.now (length work.old)) × (work.new ≡ work_laid pec body.now work.old) }
{
    lay(work, b"", b"", body, pec)
}

// A register or buffer write: its address, then the data.
pub fn lay_register(work: &mut [u8], address: u8, body: &[u8], pec: bool) -> Option<usize>
    ensures { (result ≡ laid_of pec (register_bytes address body.now) (length work.old)) × (work.new ≡ work_laid pec (register_bytes address body.now) work.old) }
{
    lay(work, &[address], b"", body, pec)
}

// Manufacturer info: its command, the length, the data.
// Stays: the remainder is the word of document 01 and of `mac_bytes`: a count of 256 is 0 there.
pub fn lay_info(work: &mut [u8], body: &[u8], pec: bool) -> Option<usize>
    ensures { (result ≡ laid_of pec (info_bytes body.now) (length work.old)) × (work.new ≡ work_laid pec (info_bytes body.now) work.old) }
{
    lay(
        work,
        &[MFG_INFO_CMD, (body.len() % 256) as u8],
        b"",
        body,
        pec,
    )
}

// A command: bits 23..16 of its address, the count 2, bits 15..8, bits 7..0.
pub fn lay_command(work: &mut [u8], address: u32, pec: bool) -> Option<usize>
    ensures { (result ≡ laid_of pec (command_bytes address) (length work.old)) × (work.new ≡ work_laid pec (command_bytes address) work.old) }
{
    let [low, middle, high, _] = address.to_le_bytes();
    lay(
        work,
        &[high, MAC_CMD_ADDR_SIZE_BYTES],
        &[middle, low],
        b"",
        pec,
    )
}

// A MAC frame: 44, the count of what follows, a command pair, the data.
fn lay_mac(work: &mut [u8], pair: &[u8], body: &[u8], pec: bool) -> Option<usize>
    ensures { (result ≡ laid_of pec (mac_bytes pair.now body.now) (length work.old)) × (work.new ≡ work_laid pec (mac_bytes pair.now body.now) work.old) }
{
    let lead = [MAC_CMD, ((body.len() + 2) % 256) as u8];
    lay(work, &lead, pair, body, pec)
}

// A MAC frame whose pair is a number, low byte first: a data-flash block at its address, the address alone, or half of an access key.
pub fn lay_number(work: &mut [u8], number: usize, body: &[u8], pec: bool) -> Option<usize>
    ensures { (result ≡ laid_of pec (mac_bytes (pair_of number) body.now) (length work.old)) × (work.new ≡ work_laid pec (mac_bytes (pair_of number) body.now) work.old) }
{
    lay_mac(work, &number.to_le_bytes()[..2], body, pec)
}

// The MAC commands that have a fixed pair.
#[derive(Clone, Copy, Debug, PartialEq, Eq)]
pub enum MacCommand {
    SecurityKeys,
    AuthenticationKey,
    ChargingVoltageOverride,
    MfgInfoC,
}

impl MacCommand {
    // The command's pair, a fixed string.
    fn pair(self) -> [u8; 2]
        ensures { result ≡ fixed_pair self }
    {
        match self {
            MacCommand::SecurityKeys => SECURITY_KEYS_CMD,
            MacCommand::AuthenticationKey => AUTH_KEY_CMD,
            MacCommand::ChargingVoltageOverride => CHRG_VOLTAGE_OVERRIDE_CMD,
            MacCommand::MfgInfoC => MFG_INFO_C_CMD,
        }
    }
}

// A MAC frame of such a command.
pub fn lay_fixed(work: &mut [u8], command: MacCommand, body: &[u8], pec: bool) -> Option<usize>
    ensures { (result ≡ laid_of pec (mac_bytes (fixed_pair command) body.now) (length work.old)) × (work.new ≡ work_laid pec (mac_bytes (fixed_pair command) body.now) work.old) }
{
    lay_mac(work, &command.pair(), body, pec)
}

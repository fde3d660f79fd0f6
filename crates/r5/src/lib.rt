// The calls of versions/r5.rs that are carried over, by name, each a plan that one of the two engines carries out: keys, access key, manufacturer info,
// charging voltage override, data flash.
#![tactic(auto)]

pub mod voltage;

ghost use Rattle.std.specs.Prelude.{◌≡◌};
ghost use Rattle.r5.specs.Plans.{mac_read, mac_write, read_security_keys, write_security_keys, read_authentication_key, write_authentication_key, read_charging_voltage_override, write_charging_voltage_override, whole_ask, send_access_key, unseal_fg, write_mfg_info_c, read_mfg_info_c, write_mfg_info, read_mfg_info, read_dataflash, write_dataflash};

use engine::limit::Limit;
use protocol::common::Config;
use protocol::consts::{
    AUTH_KEY_DATA_LEN_BYTES, CHRG_VOLTAGE_OVERRIDE_SIZE_BYTES, LARGEST_CMD_SIZE_BYTES,
    LARGEST_REG_SIZE_BYTES, MFG_INFO_CMD, SECURITY_KEYS_R5_DATA_LEN_BYTES,
};
use protocol::frame::MacCommand;
use protocol::reply::Ask;
use reading::call::ReadPlan;
use reading::parts::{Head, Reads};
use writing::call::WritePlan;
use writing::frames::Frames;

// A MAC read of exactly `size` bytes.
fn mac_read(config: Config, command: MacCommand, size: usize) -> ReadPlan
    ensures { result ≡ mac_read config command size }
{
    ReadPlan::mac(config, Limit::Exactly(size), command, size)
}

// A MAC write of exactly `size` bytes.
fn mac_write(config: Config, command: MacCommand, size: usize) -> WritePlan
    ensures { result ≡ mac_write config command size }
{
    WritePlan::new(config, Limit::Exactly(size), Frames::Mac(command))
}

// Reads the 28 bytes of the security keys.
// Stays: calls by the Rust's names with its arguments (the halves of a key among them), each a plan of one line.
pub fn read_security_keys(config: Config) -> ReadPlan
    ensures { result ≡ read_security_keys config }
{
    mac_read(
        config,
        MacCommand::SecurityKeys,
        SECURITY_KEYS_R5_DATA_LEN_BYTES,
    )
}

// Writes the 28 bytes of the security keys.
pub fn write_security_keys(config: Config) -> WritePlan
    ensures { result ≡ write_security_keys config }
{
    mac_write(
        config,
        MacCommand::SecurityKeys,
        SECURITY_KEYS_R5_DATA_LEN_BYTES,
    )
}

// Reads the 16 bytes of the authentication key.
pub fn read_authentication_key(config: Config) -> ReadPlan
    ensures { result ≡ read_authentication_key config }
{
    mac_read(
        config,
        MacCommand::AuthenticationKey,
        AUTH_KEY_DATA_LEN_BYTES,
    )
}

// Writes the 16 bytes of the authentication key.
pub fn write_authentication_key(config: Config) -> WritePlan
    ensures { result ≡ write_authentication_key config }
{
    mac_write(
        config,
        MacCommand::AuthenticationKey,
        AUTH_KEY_DATA_LEN_BYTES,
    )
}

// Reads the ten bytes of the charging voltage override, which `ChargingVoltageOverride::from_bytes` turns into figures.
pub fn read_charging_voltage_override(config: Config) -> ReadPlan
    ensures { result ≡ read_charging_voltage_override config }
{
    mac_read(
        config,
        MacCommand::ChargingVoltageOverride,
        CHRG_VOLTAGE_OVERRIDE_SIZE_BYTES,
    )
}

// Writes the ten bytes that `ChargingVoltageOverride::to_bytes` makes of the figures.
pub fn write_charging_voltage_override(config: Config) -> WritePlan
    ensures { result ≡ write_charging_voltage_override config }
{
    mac_write(
        config,
        MacCommand::ChargingVoltageOverride,
        CHRG_VOLTAGE_OVERRIDE_SIZE_BYTES,
    )
}

// Sends an access key: its lower half, then its upper one. There is no payload.
pub fn send_access_key(config: Config, lower: u16, upper: u16) -> WritePlan
    ensures { result ≡ send_access_key config lower upper }
{
    WritePlan::new(
        config,
        Limit::Exactly(0),
        Frames::AccessKey { lower, upper },
    )
}

// Unseals the gauge: the same as `send_access_key`.
pub fn unseal_fg(config: Config, lower: u16, upper: u16) -> WritePlan
    ensures { result ≡ unseal_fg config lower upper }
{
    send_access_key(config, lower, upper)
}

// Writes at most 32 bytes of manufacturer info C, behind its access key.
pub fn write_mfg_info_c(config: Config, lower: u16, upper: u16) -> WritePlan
    ensures { result ≡ write_mfg_info_c config lower upper }
{
    WritePlan::new(
        config,
        Limit::AtMost(LARGEST_CMD_SIZE_BYTES),
        Frames::MfgInfoC { lower, upper },
    )
}

// How many bytes are asked for: with a PEC the whole register, otherwise those that are wanted.
fn whole(pec_read: bool, size: usize, wanted: usize) -> usize
    ensures { result ≡ whole_ask pec_read size wanted }
{
    if pec_read { size } else { wanted }
}

// Reads at most 32 bytes of manufacturer info C, here n.
pub fn read_mfg_info_c(config: Config, n: usize) -> ReadPlan
    ensures { result ≡ read_mfg_info_c config n }
{
    ReadPlan::mac(
        config,
        Limit::AtMost(LARGEST_CMD_SIZE_BYTES),
        MacCommand::MfgInfoC,
        whole(config.pec_read, LARGEST_CMD_SIZE_BYTES, n),
    )
}

// Writes at most 32 bytes of manufacturer info.
pub fn write_mfg_info(config: Config) -> WritePlan
    ensures { result ≡ write_mfg_info config }
{
    WritePlan::new(
        config,
        Limit::AtMost(LARGEST_REG_SIZE_BYTES),
        Frames::MfgInfo,
    )
}

// Reads at most 33 bytes of manufacturer info, here n: its size byte counts as data and comes first.
pub fn read_mfg_info(config: Config, n: usize) -> ReadPlan
    ensures { result ≡ read_mfg_info config n }
{
    let most = LARGEST_REG_SIZE_BYTES + 1;
    let asked = whole(config.pec_read, most, n);
    ReadPlan::plain(
        config,
        Limit::AtMost(most),
        Ask::plain(MFG_INFO_CMD, asked, config.pec_read),
    )
}

// Reads data flash from an address on, block by block.
pub fn read_dataflash(config: Config, starting_address: u16) -> ReadPlan
    ensures { result ≡ read_dataflash config starting_address }
{
    ReadPlan::new(
        config,
        Limit::Window,
        Head::DataFlash(starting_address),
        Reads::Blocks(config.pec_read),
    )
}

// Writes data flash from an address on, block by block.
pub fn write_dataflash(config: Config, starting_address: u16) -> WritePlan
    ensures { result ≡ write_dataflash config starting_address }
{
    WritePlan::new(config, Limit::Window, Frames::DataFlash(starting_address))
}

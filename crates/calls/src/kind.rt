// The requests of a host: one for each call of interface.rs and versions/r5.rs that the driver has, under its name, with its arguments but for what is
// lent. (read_register_unchecked and write_register_unchecked were retired: 02, W-210)
ghost use Rattle.std.specs.Prelude.{◌≡◌};
ghost use Rattle.calls.specs.Kind.{plan_of};

use protocol::common::Config;
use reading::call::ReadPlan;
use writing::call::WritePlan;

// Which call.
#[derive(Clone, Copy, Debug, PartialEq, Eq)]
pub enum Kind {
    // The plain write.
    WriteWithRetries,
    WriteRegister(u8),
    ReadRegister(u8),
    // The payload is its input, the buffer its output.
    DispatchCommand(u32),
    WriteBuffer(u8),
    ReadBuffer(u8),
    WriteSecurityKeys,
    ReadSecurityKeys,
    WriteAuthenticationKey,
    ReadAuthenticationKey,
    WriteChargingVoltageOverride,
    ReadChargingVoltageOverride,
    SendAccessKey { lower: u16, upper: u16 },
    UnsealFg { lower: u16, upper: u16 },
    WriteMfgInfoC { lower: u16, upper: u16 },
    ReadMfgInfoC,
    WriteMfgInfo,
    ReadMfgInfo,
    WriteDataflash(u16),
    ReadDataflash(u16),
}

// What is carried out, and by which engine.
#[derive(Clone, Copy, Debug, PartialEq, Eq)]
pub enum Plan {
    Write(WritePlan),
    Read(ReadPlan),
}

impl Kind {
    // The plan of a call of this kind, with a payload and a buffer of so many bytes.
    // Stays: a row for each call by name: the table of what a host may ask.
    pub(crate) fn plan(self, config: Config, payload: usize, buffer: usize) -> Plan
        ensures { result ≡ plan_of self config payload buffer }
    {
        match self {
            Kind::WriteWithRetries => Plan::Write(interface::write_with_retries(config)),
            Kind::WriteRegister(address) => Plan::Write(interface::write_register(config, address)),
            Kind::ReadRegister(address) => {
                Plan::Read(interface::read_register(config, address, buffer))
            }
            Kind::DispatchCommand(address) => {
                Plan::Read(interface::dispatch_command(config, address, payload, buffer))
            }
            Kind::WriteBuffer(address) => Plan::Write(interface::write_buffer(config, address)),
            Kind::ReadBuffer(address) => Plan::Read(interface::read_buffer(
                config, address, buffer,
            )),
            Kind::WriteSecurityKeys => Plan::Write(r5::write_security_keys(config)),
            Kind::ReadSecurityKeys => Plan::Read(r5::read_security_keys(config)),
            Kind::WriteAuthenticationKey => Plan::Write(r5::write_authentication_key(config)),
            Kind::ReadAuthenticationKey => Plan::Read(r5::read_authentication_key(config)),
            Kind::WriteChargingVoltageOverride => {
                Plan::Write(r5::write_charging_voltage_override(config))
            }
            Kind::ReadChargingVoltageOverride => {
                Plan::Read(r5::read_charging_voltage_override(config))
            }
            Kind::SendAccessKey { lower, upper } => {
                Plan::Write(r5::send_access_key(config, lower, upper))
            }
            Kind::UnsealFg { lower, upper } => Plan::Write(r5::unseal_fg(config, lower, upper)),
            Kind::WriteMfgInfoC { lower, upper } => {
                Plan::Write(r5::write_mfg_info_c(config, lower, upper))
            }
            Kind::ReadMfgInfoC => Plan::Read(r5::read_mfg_info_c(config, buffer)),
            Kind::WriteMfgInfo => Plan::Write(r5::write_mfg_info(config)),
            Kind::ReadMfgInfo => Plan::Read(r5::read_mfg_info(config, buffer)),
            Kind::WriteDataflash(address) => Plan::Write(r5::write_dataflash(config, address)),
            Kind::ReadDataflash(address) => Plan::Read(r5::read_dataflash(config, address)),
        }
    }
}

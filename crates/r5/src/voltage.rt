// The charging voltage override: five signed figures in millivolts, as ten bytes and back. (common.rs, ChargingVoltageOverride)
ghost use Rattle.std.specs.Prelude.{◌≡◌};
ghost use Rattle.r5.specs.Voltage.{override_bytes, override_of};

// The five charging voltages that override the gauge's own, in millivolts.
#[derive(Clone, Copy, Debug, PartialEq, Eq)]
pub struct ChargingVoltageOverride {
    pub low_temp_chrg_mv: i16,
    pub std_low_temp_chrg_mv: i16,
    pub std_hi_temp_chrg_mv: i16,
    pub hi_temp_chrg_mv: i16,
    pub recommended_temp_chrg_mv: i16,
}

impl ChargingVoltageOverride {
    // The ten bytes that are written: each figure low byte first.
    // Stays: the Rust has it by a name, and `From` beside it would be a second way.
    pub fn to_bytes(self) -> [u8; 10]
        ensures { result ≡ override_bytes self }
    {
        let [a, b] = self.low_temp_chrg_mv.to_le_bytes();
        let [c, d] = self.std_low_temp_chrg_mv.to_le_bytes();
        let [e, f] = self.std_hi_temp_chrg_mv.to_le_bytes();
        let [g, h] = self.hi_temp_chrg_mv.to_le_bytes();
        let [i, j] = self.recommended_temp_chrg_mv.to_le_bytes();
        [a, b, c, d, e, f, g, h, i, j]
    }

    // The five figures of the ten bytes that were read.
    pub fn from_bytes(bytes: &[u8; 10]) -> ChargingVoltageOverride
        ensures { result ≡ override_of bytes.now }
    {
        ChargingVoltageOverride {
            low_temp_chrg_mv: i16::from_le_bytes([bytes[0], bytes[1]]),
            std_low_temp_chrg_mv: i16::from_le_bytes([bytes[2], bytes[3]]),
            std_hi_temp_chrg_mv: i16::from_le_bytes([bytes[4], bytes[5]]),
            hi_temp_chrg_mv: i16::from_le_bytes([bytes[6], bytes[7]]),
            recommended_temp_chrg_mv: i16::from_le_bytes([bytes[8], bytes[9]]),
        }
    }
}

// The sizes and commands of the gauge, under the names of consts.rs where it has them.

pub const LARGEST_REG_SIZE_BYTES: usize = 32;

pub const LARGEST_CMD_SIZE_BYTES: usize = 32;

pub const LARGEST_BUF_SIZE_BYTES: usize = 33;

pub const LARGEST_DF_BLOCK_SIZE_BYTES: usize = 32;

// The gauge's address on the bus: byte 16 hex opens a write, 17 hex a read.
pub const BQ_ADDR: u8 = 0x0B;

pub const MAC_CMD_ADDR_SIZE_BYTES: u8 = 2;

pub const MAC_CMD_ADDR_SIZE_BITS: u8 = MAC_CMD_ADDR_SIZE_BYTES * 8;

pub const MAC_CMD: u8 = 0x44;

// The first and the last address of the data-flash window.
pub const DF_FIRST_ADDRESS: u16 = 0x4000;

pub const DF_LAST_ADDRESS: u16 = 0x5FFF;

// The command pairs, low byte first, as they stand in a frame after 44 and the count.
pub const SECURITY_KEYS_CMD: [u8; 2] = *b"\x35\x00";

pub const AUTH_KEY_CMD: [u8; 2] = *b"\x37\x00";

pub const CHRG_VOLTAGE_OVERRIDE_CMD: [u8; 2] = *b"\xB0\x00";

pub const MFG_INFO_C_CMD: [u8; 2] = *b"\x7B\x00";

pub const SECURITY_KEYS_R5_DATA_LEN_BYTES: usize = 28;

pub const AUTH_KEY_DATA_LEN_BYTES: usize = 16;

pub const CHRG_VOLTAGE_OVERRIDE_SIZE_BYTES: usize = 10;

pub const MFG_INFO_CMD: u8 = 0x70;

pub const DEFAULT_BUS_RETRIES: u16 = 3;

pub const DEFAULT_ERROR_BACKOFF_DELAY_MS: u32 = 10;

// The first address past the window, 6000 hex.
pub const DF_END_ADDRESS: u16 = DF_LAST_ADDRESS + 1;

// How many addresses the window has: 8,192.
pub const DF_SIZE_BYTES: usize = (DF_END_ADDRESS - DF_FIRST_ADDRESS) as usize;

// The longest frame that a plain write puts a PEC after.
pub const LARGEST_PLAIN_SIZE_BYTES: usize = 38;

// A work buffer has room for the longest frame and its PEC.
pub const LEAST_WORK_BUFFER: usize = 39;

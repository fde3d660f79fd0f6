// The gauge on the other side of the bus: its flash is lent, its read pointer goes in by value and comes back.
ghost use Rattle.std.specs.Prelude.{◌≡◌, List, [], ℕ, ◌+◌, ◌-◌, min};
ghost use Rattle.protocol.specs.Bytes.{block_in};
ghost use Rattle.engine.specs.Made.{write, read};
ghost use Rattle.model_gauge.specs.Gauge.{new_gauge, offset_of, block_at, reply_of, moved_of, replies_to, lost, acts, effect_of, handed_back};

use crate::frame;
use crate::frame::Form;
use engine::bus::Outcome;
use protocol::consts::{
    BQ_ADDR, DF_END_ADDRESS, DF_FIRST_ADDRESS, DF_SIZE_BYTES, LARGEST_DF_BLOCK_SIZE_BYTES, MAC_CMD,
};
use protocol::{bytes, window};

// The data flash has a byte for each address from 4000 to 5FFF hex.
pub const FLASH_BYTES: usize = DF_SIZE_BYTES;

// A whole reply: the length, two address bytes, 32 bytes of data, the PEC.
pub const REPLY_BYTES: usize = 36;

// What becomes of a transfer on its way.
#[derive(Clone, Copy, Debug, PartialEq, Eq)]
pub enum Fate {
    // It is heard, and so is what the gauge makes of it.
    Heard,
    // It is lost before the gauge acts.
    LostBefore,
    // It is lost after the gauge has acted.
    LostAfter,
}

// The gauge's read pointer.
#[derive(Clone, Copy, Debug, PartialEq, Eq)]
pub struct Gauge {
    pub pointer: u16,
}

// What a transfer comes to, beside what it leaves in the lent bytes.
// Stays: the reply itself is lent, so its length stands here.
#[derive(Clone, Copy, Debug, PartialEq, Eq)]
pub struct Effect {
    pub outcome: Outcome,
    // How many bytes of a reply reach the host.
    pub replied: usize,
    pub gauge: Gauge,
}

// The address a block further on, at most the end of the window.
fn onward(address: u16) -> u16
    ensures { result ≡ min (address + 32) 0x6000 }
{
    address.saturating_add(32).min(DF_END_ADDRESS)
}

// Where an address lies in the flash.
fn offset(address: u16) -> usize
    ensures { result ≡ offset_of address }
{
    address.saturating_sub(DF_FIRST_ADDRESS) as usize
}

// Whether the gauge replies to a read: of the command 44, and of at most a whole reply.
fn replies(command: u8, count: usize) -> bool
    ensures { result ≡ replies_to command count }
{
    command == MAC_CMD && count <= REPLY_BYTES
}

// The 32 bytes from an offset on, FF past the end.
fn block_at(flash: &[u8], at: usize) -> [u8; 32]
    ensures { result ≡ block_at at flash.now }
{
    let mut data = [0xFFu8; 32];
    bytes::copy_block(
        &mut data,
        bytes::block(flash, at, LARGEST_DF_BLOCK_SIZE_BYTES),
        LARGEST_DF_BLOCK_SIZE_BYTES,
    );
    data
}

impl Effect {
    // The gauge has acted, and the host hears nothing of it.
    fn unheard(self) -> Effect
        ensures { result ≡ handed_back (lost self.gauge []) }
    {
        Effect {
            outcome: Outcome::Timeout,
            replied: 0,
            ..self
        }
    }
}

impl Gauge {
    // The gauge as it starts: it reads from the first address.
    pub fn new() -> Gauge
        ensures { result ≡ new_gauge }
    {
        Gauge {
            pointer: DF_FIRST_ADDRESS,
        }
    }

    // What the host hears, and no reply.
    fn tells(self, outcome: Outcome) -> Effect
        ensures { result ≡ record { outcome = outcome; replied = 0; gauge = self } }
    {
        Effect {
            outcome,
            replied: 0,
            gauge: self,
        }
    }

    // A frame that is heard.
    fn hear(self, frame: &[u8], flash: &mut [u8]) -> Effect
        ensures { (result ≡ handed_back (acts (write frame.now) self flash.old)) × (flash.new ≡ (acts (write frame.now) self flash.old).flash) }
    {
        let form = frame::read_frame(frame);
        let Form::BlockWrite { address, count } = form else {
            let Form::Address(address) = form else {
                return self.tells(Outcome::BusError(0));
            };
            if window::check_df_range(address, 1) {
                return Gauge { pointer: address }.tells(Outcome::Acknowledged);
            }
            return self.tells(Outcome::BusError(0));
        };
        if window::check_df_range(address, count) {
            bytes::store_block(flash, offset(address), bytes::block(frame, 4, count), count);
            self.tells(Outcome::Acknowledged)
        } else {
            self.tells(Outcome::BusError(0))
        }
    }

    // A frame goes to the gauge.
    // Stays: an arm for each fate of a transfer; one function over writes and reads would take a closure that borrows the flash in two ways.
    pub fn write(self, fate: Fate, frame: &[u8], flash: &mut [u8]) -> Effect
        ensures { (result ≡ handed_back (effect_of fate (write frame.now) self flash.old)) × (flash.new ≡ (effect_of fate (write frame.now) self flash.old).flash) }
    {
        match fate {
            Fate::Heard => self.hear(frame, flash),
            Fate::LostBefore => self.tells(Outcome::Timeout),
            Fate::LostAfter => self.hear(frame, flash).unheard(),
        }
    }

    // The whole reply to a read: 22 hex, the pointer, 32 bytes from there on, the PEC.
    fn reply(self, flash: &[u8]) -> [u8; REPLY_BYTES]
        ensures { result ≡ reply_of self flash.now }
    {
        let [low, high] = self.pointer.to_le_bytes();
        let lead = [0x22, low, high];
        let data = block_at(flash, offset(self.pointer));
        let opening = [BQ_ADDR * 2, MAC_CMD, BQ_ADDR * 2 + 1];
        let mut reply = [0u8; REPLY_BYTES];
        bytes::store_block(&mut reply, 0, &lead, 3);
        bytes::store_block(&mut reply, 3, &data, 32);
        reply[35] = frame::check_byte(&opening, bytes::front(&reply, 35));
        reply
    }

    // The pointer moves on by a block.
    fn moved(self) -> Gauge
        ensures { result ≡ moved_of self }
    {
        Gauge {
            pointer: onward(self.pointer),
        }
    }

    // A read that is heard: one that is replied to moves the pointer on.
    fn ask(self, command: u8, count: usize) -> Effect
        ensures { (flash : List ℕ) → result ≡ handed_back (acts (read command count) self flash) }
    {
        if replies(command, count) {
            Effect {
                outcome: Outcome::Acknowledged,
                replied: count,
                gauge: self.moved(),
            }
        } else {
            self.tells(Outcome::BusError(0))
        }
    }

    // What becomes of a read.
    // Stays: as in `write`.
    fn asked(self, fate: Fate, command: u8, count: usize) -> Effect
        ensures { (flash : List ℕ) → result ≡ handed_back (effect_of fate (read command count) self flash) }
    {
        match fate {
            Fate::Heard => self.ask(command, count),
            Fate::LostBefore => self.tells(Outcome::Timeout),
            Fate::LostAfter => self.ask(command, count).unheard(),
        }
    }

    // A read goes to the gauge, and what it brings stands at the front of `reply`, as much of it as there is room for.
    pub fn read(
        self,
        fate: Fate,
        command: u8,
        count: usize,
        flash: &[u8],
        reply: &mut [u8],
    ) -> Effect
        ensures { (result ≡ handed_back (effect_of fate (read command count) self flash.now)) × (reply.new ≡ block_in 36 (effect_of fate (read command count) self flash.now).reply reply.old) }
    {
        let effect = self.asked(fate, command, count);
        let whole = self.reply(flash);
        bytes::copy_block(reply, bytes::front(&whole, effect.replied), REPLY_BYTES);
        effect
    }
}

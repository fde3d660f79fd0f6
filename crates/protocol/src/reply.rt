// What a read asks for, and what its reply must look like, for all reads.
ghost use Rattle.std.specs.Prelude.{◌≡◌};
ghost use Rattle.protocol.specs.Reply.{plain_ask, mac_ask, lead_of, around_of, bytes_asked, checked_of, heard_of, data_of};

use crate::bytes;
use crate::consts::{BQ_ADDR, MAC_CMD};

// A read as it goes out, and how its reply is laid out.
#[derive(Clone, Copy, Debug, PartialEq, Eq)]
pub struct Ask {
    // The command byte that is sent.
    pub command: u8,
    // The command byte that the PEC is worked out with.
    pub covered: u8,
    // Whether a length and two address bytes stand before the data.
    pub prefixed: bool,
    // How many bytes of data are wanted.
    pub wanted: usize,
    // Whether a PEC is asked for after them.
    pub pec: bool,
}

// Why a reply is not believed.
#[derive(Clone, Copy, Debug, PartialEq, Eq)]
pub enum Unheard {
    // Its length is not the number asked.
    WrongLength,
    // Its PEC differs.
    WrongPec,
}

// Whether the last byte of a reply is the PEC of 16, the command, 17 and what came before it.
fn checked(covered: u8, reply: &[u8]) -> bool
    ensures { result ≡ checked_of covered reply.now }
{
    let Some((&last, data)) = reply.split_last() else {
        return false;
    };
    let opening = [BQ_ADDR * 2, covered, BQ_ADDR * 2 + 1];
    smbus_pec::pec(smbus_pec::pec(0, &opening), data) == last
}

impl Ask {
    // A plain read: the reply is the data, and the PEC covers the command that was sent.
    pub fn plain(command: u8, count: usize, pec: bool) -> Ask
        ensures { result ≡ plain_ask command count pec }
    {
        Ask {
            command,
            covered: command,
            prefixed: false,
            wanted: count,
            pec,
        }
    }

    // A MAC or data-flash read: three bytes stand before the data, and the PEC covers 44 whatever command was sent.
    // Stays: each has its own three fields; a function for both would have them as parameters.
    pub fn mac(command: u8, count: usize, pec: bool) -> Ask
        ensures { result ≡ mac_ask command count pec }
    {
        Ask {
            command,
            covered: MAC_CMD,
            prefixed: true,
            wanted: count,
            pec,
        }
    }

    // How many bytes of a reply stand before the data.
    fn lead(self) -> usize
        ensures { result ≡ lead_of self }
    {
        if self.prefixed { 3 } else { 0 }
    }

    // How many bytes of a reply are not data: those before it, and the PEC.
    fn around(self) -> usize
        ensures { result ≡ around_of self }
    {
        if self.pec {
            self.lead() + 1
        } else {
            self.lead()
        }
    }

    // How many bytes are asked for.
    pub fn count(self) -> usize
        ensures { result ≡ bytes_asked self }
    {
        self.wanted.saturating_add(self.around())
    }

    // Whether a reply is believed.
    pub fn hear(self, reply: &[u8]) -> Result<(), Unheard>
        ensures { result ≡ heard_of self reply.now }
    {
        if self.count() != reply.len() {
            return Err(Unheard::WrongLength);
        }
        if self.pec && !checked(self.covered, reply) {
            return Err(Unheard::WrongPec);
        }
        Ok(())
    }

    // The data of a reply.
    pub fn data_of(self, reply: &[u8]) -> &[u8]
        ensures { result.now ≡ data_of self reply.now }
    {
        bytes::block(reply, self.lead(), self.wanted)
    }
}

// The data-flash window, 4000 to 5FFF hex. (02, W-202; interface.rs, check_df_range)
ghost use Rattle.std.specs.Prelude.{◌≡◌};
ghost use Rattle.protocol.specs.Window.{in_window};

use crate::consts::{DF_END_ADDRESS, DF_FIRST_ADDRESS, DF_LAST_ADDRESS};

// An empty transfer passes anywhere; else the start lies in 4000 to 5FFF hex, and the length is at most the room left, 6000 hex minus the start.
pub fn check_df_range(starting_address: u16, len: usize) -> bool
    ensures { result ≡ in_window starting_address len }
{
    if len == 0 {
        return true;
    }
    if starting_address < DF_FIRST_ADDRESS {
        return false;
    }
    if DF_LAST_ADDRESS < starting_address {
        return false;
    }
    // The start is not past the window, so this does not wrap.
    let room_left = (DF_END_ADDRESS - starting_address) as usize;
    len <= room_left
}

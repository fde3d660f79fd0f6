// An outcome line: 00 and any reply, 01 and a code, 02.
ghost use Rattle.std.specs.Prelude.{◌≡◌};
ghost use Rattle.requests.specs.Outcome.{outcome_line};

use crate::request::MOST_BYTES;
use engine::bus::Outcome;

// The longest outcome line is 00 and a reply.
pub const LONGEST_OUTCOME: usize = MOST_BYTES + 1;

// How the transfer went, as the bytes of an outcome line say; none where the line is bad.
pub fn read(line: &[u8]) -> Option<Outcome>
    ensures { result ≡ outcome_line line.now }
{
    match line {
        [0, ..] if line.len() <= LONGEST_OUTCOME => Some(Outcome::Acknowledged),
        [1, code] => Some(Outcome::BusError(*code)),
        [2] => Some(Outcome::Timeout),
        _ => None,
    }
}

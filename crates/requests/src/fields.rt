// Parts of a line: numbers, low byte first, where what the line lacks counts as 0.
ghost use Rattle.std.specs.Prelude.{◌≡◌, ◌<◌, get_or};
ghost use Rattle.requests.specs.Fields.{pair_at, quad_at};

// The byte at a place.
pub fn byte(line: &[u8], at: usize) -> u8
    ensures { result ≡ get_or line.now at 0 }
{
    line.get(at).copied().unwrap_or(0)
}

// The two-byte number at a place.
pub(crate) fn pair(line: &[u8], at: usize) -> u16
    requires { at < 256 }
    ensures { result ≡ pair_at at line.now }
{
    u16::from_le_bytes([byte(line, at), byte(line, at + 1)])
}

// The four-byte number at a place.
pub(crate) fn quad(line: &[u8], at: usize) -> u32
    requires { at < 128 }
    ensures { result ≡ quad_at at line.now }
{
    u32::from_le_bytes([
        byte(line, at),
        byte(line, at + 1),
        byte(line, at + 2),
        byte(line, at + 3),
    ])
}

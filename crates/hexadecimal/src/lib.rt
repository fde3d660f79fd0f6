// Upper-case hexadecimal: digits to bytes and bytes to digits, over lent slices.
#![tactic(auto)]

ghost use Rattle.std.specs.Prelude.{◌≡◌, length};
ghost use Rattle.hexadecimal.specs.Hex.{below, value_of, byte_of, digit_of, decoded_of, out_decoded, encoded_of, out_encoded};

// Why digits come to no bytes.
#[derive(Clone, Copy, Debug, PartialEq, Eq)]
pub enum DecodeError {
    // An odd number of digits, or, where there is room, a byte that is no digit.
    Bad,
    // An even number of digits, whatever they are, for more bytes than what was lent has room for.
    TooLong,
}

// The value of a digit; none of a byte that is no digit.
fn value(digit: u8) -> Option<u8>
    ensures { result ≡ below 16 (value_of digit) }
{
    match digit {
        b'0'..=b'9' => Some(digit - b'0'),
        b'A'..=b'F' => Some(digit - b'A' + 10),
        _ => None,
    }
}

// The byte of two digits, the high one first; none where one is no digit.
fn pair(high: u8, low: u8) -> Option<u8>
    ensures { result ≡ below 256 (byte_of high low) }
{
    Some(value(high)? * 16 + value(low)?)
}

// The digit of a value below 16.
fn digit(value: u8) -> u8
    ensures { result ≡ digit_of value }
{
    if value < 10 {
        value + b'0'
    } else {
        value % 16 + (b'A' - 10)
    }
}

// Digits to bytes, at the front of `out`: how many bytes. Bytes before a pair that is bad are laid; without room, or at an odd count, nothing is.
pub fn decode(digits: &[u8], out: &mut [u8]) -> Result<usize, DecodeError>
    ensures { (result ≡ decoded_of digits.now (length out.old)) × (out.new ≡ out_decoded digits.now out.old) }
{
    if digits.len() % 2 == 1 {
        return Err(DecodeError::Bad);
    }
    let n = digits.len() / 2;
    if out.len() < n {
        return Err(DecodeError::TooLong);
    }
    for (i, two) in digits.chunks_exact(2).enumerate() {
        out[i] = pair(two[0], two[1]).ok_or(DecodeError::Bad)?;
    }
    Ok(n)
}

// Bytes to digits, at the front of `out`: how many digits. Without room, which is none, nothing is laid.
// Stays: each pair of digits is laid at its place; `zip` would cut `out` to the pairs first.
pub fn encode(bytes: &[u8], out: &mut [u8]) -> Option<usize>
    ensures { (result ≡ encoded_of (length bytes.now) (length out.old)) × (out.new ≡ out_encoded bytes.now out.old) }
{
    let n = bytes.len();
    if out.len() / 2 < n {
        return None;
    }
    for (i, byte) in bytes.iter().enumerate() {
        out[i * 2] = digit(byte / 16);
        out[i * 2 + 1] = digit(byte % 16);
    }
    Some(n * 2)
}

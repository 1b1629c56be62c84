// Numbers and floats out of lent bytes: the lowest byte first, floats by their bits.
ghost use Rattle.std.specs.Prelude.{◌+◌, ◌≤◌, ◌≡◌, length};
ghost use Rattle.rules.specs.Bytes.{float_at};
ghost use Rattle.lent_bytes.specs.Lent.{ReadAt};

use hypermath::patterns::float_of;

// The number in K bytes.
pub fn number<const K: usize>(bytes: &[u8], at: usize) -> u64
    requires fits_word { K ≤ 8 }
    requires within { at + K ≤ length bytes.now }
    ensures { ReadAt K at bytes.now result }
{
    let mut word = [0u8; 8];
    word[..K].copy_from_slice(&bytes[at..at + K]);
    u64::from_le_bytes(word)
}

// Of every NaN's bits, the one NaN.
pub fn float(bytes: &[u8], at: usize) -> f64
    requires { at + 8 ≤ length bytes.now }
    ensures { result ≡ float_at at bytes.now }
{
    float_of(number::<8>(bytes, at))
}

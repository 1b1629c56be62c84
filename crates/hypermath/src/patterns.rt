// A float by its bit pattern.
ghost use Rattle.std.specs.Prelude.{◌≡◌};
ghost use Rattle.std.specs.Float.{binary64};
ghost use Rattle.std.specs.Float.Ieee.{of_bits};

// The float of a bit pattern; of every NaN's pattern, the one NaN.
pub fn float_of(word: u64) -> f64
    ensures { result ≡ of_bits binary64 word }
{
    if 0x7ff0_0000_0000_0000 < word % 0x8000_0000_0000_0000 {
        return 0.0 / 0.0;
    }
    f64::from_bits(word)
}

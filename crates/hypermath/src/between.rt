// A coordinate of a crossing beside those of its edge's two ends.
ghost use Rattle.std.specs.Prelude.{◌≡◌, ◌&&◌};
ghost use Rattle.std.specs.Float.Ieee.{lt};
ghost use Rattle.rules.specs.Floats as floats;

// Whether x is above both ends.
pub fn above_both(a: f64, b: f64, x: f64) -> bool
    ensures { result ≡ (lt a x && lt b x) }
{
    a < x && b < x
}

// Whether x is below both ends.
pub fn below_both(a: f64, b: f64, x: f64) -> bool
    ensures { result ≡ (lt x a && lt x b) }
{
    x < a && x < b
}

// The greater of two ends, of two that are equal the first: written out, for f64::max keeps no order of two zeros and drops a NaN.
pub fn greater(a: f64, b: f64) -> f64
    ensures { result ≡ floats.greater a b }
{
    if a < b {
        return b;
    }
    a
}

// The lesser of two ends, of two that are equal the first: written out as the greater is.
pub fn lesser(a: f64, b: f64) -> f64
    ensures { result ≡ floats.lesser a b }
{
    if b < a {
        return b;
    }
    a
}

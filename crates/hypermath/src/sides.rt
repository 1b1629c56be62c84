// The side tests of an edge's two ends beside each other.
ghost use Rattle.std.specs.Prelude.{◌≡◌};
ghost use Rattle.rules.specs.Floats as floats;

use rules::Side;

// One end is inside and the other outside.
pub fn opposed(a: Side, b: Side) -> bool
    ensures { result ≡ floats.opposite a b }
{
    matches!(
        (a, b),
        (Side::Inside, Side::Outside) | (Side::Outside, Side::Inside)
    )
}

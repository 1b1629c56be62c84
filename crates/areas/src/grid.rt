// Coordinates in whole units of 1/1,024: the product with 1,024 is exact, and so is the cast of its whole part back.
ghost use Rattle.std.specs.Prelude.{◌≡◌, true};
ghost use Rattle.rules.specs.Floats.{within, farthest};
ghost use Rattle.rules.specs.Areas.{on_grid, units};

use std::num::truncating_f64_to_i64;

const UNITS_IN_ONE: f64 = 1024.0;

// What is less than a unit is left off.
pub fn units_of(x: f64) -> i64
    requires { within farthest x ≡ true }
    ensures { result ≡ units x }
{
    truncating_f64_to_i64(x * UNITS_IN_ONE)
}

// Nothing was left off.
pub fn is_on_grid(x: f64) -> bool
    requires { within farthest x ≡ true }
    ensures { result ≡ on_grid x }
{
    let n = units_of(x);
    n as f64 == x * UNITS_IN_ONE
}

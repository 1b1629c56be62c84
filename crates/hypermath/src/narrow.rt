// A float narrowed to 32 bits, to the nearest and at a tie to the even one, by its bits: `as f32` is for floats that fit.
ghost use Rattle.std.specs.Prelude.{◌+◌, ◌^◌, ◌<◌, ◌≤◌, false, ◌≡◌};
ghost use Rattle.std.specs.Float.{binary32};
ghost use Rattle.std.specs.Float.Ieee.{to_bits, is_nan};
ghost use Rattle.std.specs.Float.Ieee.Nearest.{closest};
ghost use Rattle.rules.specs.Print.{narrowed};
ghost use Rattle.hypermath.specs.Narrow.{narrowed_size, NumberUnder};

// The weight of the sign, of the exponent's field, and so of the leading digit, among 64 bits; and among 32.
const SIGN: u64 = 0x8000_0000_0000_0000;

const LEADING: u64 = 0x10_0000_0000_0000;

const SHORT_SIGN: u64 = 0x8000_0000;

const SHORT_LEADING: u64 = 0x80_0000;

// The exponent's field, of those of 64 bits, below which all is nearer to zero than to any other value; from which on no digits but 29 are dropped; and past which all is an infinity.
const NEAREST: u64 = 873;

const NORMAL: u64 = 897;

const LARGEST: u64 = 1150;

// What an infinity has in the place of an exponent.
const SHORT_INFINITE: u64 = 255;

fn unit_of(dropped: u64) -> u64
    requires { dropped < 64 }
    ensures { result ≡ 2 ^ dropped }
{
    1u64 << dropped
}

// q / unit to the nearest whole number, a tie to the even one.
fn rounded(q: u64, unit: u64) -> u64
    requires q_bound { q < 2 ^ 53 }
    requires unit_nonzero { 0 < unit }
    ensures { NumberUnder (closest q unit) (2 ^ 54) result }
{
    let down = q / unit;
    let twice = q % unit * 2;
    if twice < unit {
        return down;
    }
    if unit < twice {
        return down + 1;
    }
    down + down % 2
}

// The bits below the sign, by the exponent's field and the digits of 64 bits.
fn narrowed_size(field: u64, digits: u64) -> u64
    requires { digits < 2 ^ 52 }
    ensures { NumberUnder (narrowed_size field digits) (2 ^ 55) result }
{
    if field < NEAREST {
        return 0;
    }
    if LARGEST < field {
        return SHORT_INFINITE * SHORT_LEADING;
    }
    if field < NORMAL {
        return rounded(LEADING + digits, unit_of(926 - field));
    }
    (field - NORMAL) * SHORT_LEADING + rounded(LEADING + digits, unit_of(29))
}

// No NaN: its bits are open.
pub fn narrowed_bits(x: f64) -> u64
    requires { is_nan x ≡ false }
    ensures { result ≡ to_bits binary32 (narrowed x) }
{
    let bits = f64::to_bits(x);
    let size = narrowed_size(bits % SIGN / LEADING, bits % LEADING);
    if bits < SIGN {
        return size;
    }
    SHORT_SIGN + size
}

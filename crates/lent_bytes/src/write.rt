// Into lent bytes, one after another: bytes as they are, numbers with the lowest byte first, floats by their bits.
ghost use Rattle.std.specs.Prelude.{◌+◌, ℕ, ◌*◌, ◌-◌, ◌≤◌, not, true, false, ◌≡◌, List, All, map, length, take, drop};
ghost use Rattle.std.specs.Float.{binary64};
ghost use Rattle.std.specs.Float.Ieee.{is_nan, to_bits};
ghost use Rattle.rules.specs.Lists.{all, joined};
ghost use Rattle.rules.specs.Bytes.{bytes_of, number_bytes, float_byte8, float_bytes};
ghost use Rattle.rules.specs.Print.{narrowed_bytes, corner_bytes};
ghost use Rattle.lent_bytes.specs.Lent.{Put, Part};

use hypermath::narrow::narrowed_bits;

pub fn word(bytes: &[u8], room: &mut [u8], at: usize) -> usize
    requires { at + length bytes.now ≤ length room.old }
    ensures { Put room.old at bytes.now result room.new }
{
    let end = at + bytes.len();
    room[at..end].copy_from_slice(bytes);
    end
}

// A number in k bytes; what they do not hold of it is left out.
pub fn number(k: usize, n: u64, room: &mut [u8], at: usize) -> usize
    requires { at + k ≤ length room.old }
    ensures { Put room.old at (bytes_of k n) result room.new }
{
    let mut left = n;
    for byte in &mut room[at..at + k] {
        *byte = (left % 256) as u8;
        left /= 256;
    }
    at + k
}

// The entries of a list, each by its bits, in k bytes each.
fn entries<T: Copy, F: Fn(T) -> u64>(
    k: usize,
    list: &[T],
    bits: F,
    room: &mut [u8],
    at: usize,
) -> usize
    requires have_bits { All (λ x. F.pre bits x) list.now }
    requires fits_room { at + length list.now * k ≤ length room.old }
    ensures { (f : T → List ℕ) → ((x : T) (n : ℕ) → F.post bits x n → bytes_of k n ≡ f x) → Put room.old at (joined (map f list.now)) result room.new }
{
    let mut end = at;
    for &x in list {
        end = number(k, bits(x), room, end);
    }
    end
}

// The words from one index up to another, in k bytes each.
pub fn numbers(k: usize, words: &[u16], from: usize, to: usize, room: &mut [u8], at: usize) -> usize
    requires part { Part words.now from to }
    requires fits_room { at + (to - from) * k ≤ length room.old }
    ensures { Put room.old at (number_bytes k (drop from (take to words.now))) result room.new }
{
    entries(k, &words[from..to], u64::from, room, at)
}

// No NaN: its bits are open.
pub fn float(x: f64, room: &mut [u8], at: usize) -> usize
    requires is_number { is_nan x ≡ false }
    requires fits_room { at + 8 ≤ length room.old }
    ensures { Put room.old at (float_byte8 x) result room.new }
{
    number(8, f64::to_bits(x), room, at)
}

// The floats from one index up to another, none of them a NaN.
pub fn floats(list: &[f64], from: usize, to: usize, room: &mut [u8], at: usize) -> usize
    requires part { Part list.now from to }
    requires are_numbers { all (λ x. not (is_nan x)) (drop from (take to list.now)) ≡ true }
    requires fits_room { at + (to - from) * 8 ≤ length room.old }
    ensures { Put room.old at (float_bytes (drop from (take to list.now))) result room.new }
{
    let bits = |x: f64|
        requires { is_nan x ≡ false }
        ensures { result ≡ to_bits binary64 x }
    { f64::to_bits(x) };
    entries(8, &list[from..to], bits, room, at)
}

// The same in 4 bytes, narrowed to the nearest float of 32 bits. Beside `corner`, for who writes one coordinate alone.
pub fn narrowed(x: f64, room: &mut [u8], at: usize) -> usize
    requires is_number { is_nan x ≡ false }
    requires fits_room { at + 4 ≤ length room.old }
    ensures { Put room.old at (narrowed_bytes x) result room.new }
{
    corner(&[x], 0, 1, room, at)
}

// The coordinates of a point, from one index up to another.
pub fn corner(list: &[f64], from: usize, to: usize, room: &mut [u8], at: usize) -> usize
    requires part { Part list.now from to }
    requires are_numbers { all (λ x. not (is_nan x)) (drop from (take to list.now)) ≡ true }
    requires fits_room { at + (to - from) * 4 ≤ length room.old }
    ensures { Put room.old at (corner_bytes (drop from (take to list.now))) result room.new }
{
    entries(4, &list[from..to], narrowed_bits, room, at)
}

// What a slice of memory has: numbers of 16 bits, or floats.
use hypermath::patterns::float_of;

pub trait Word: Copy {
    // The word of a pattern, of which a number takes the lowest bits.
    fn of_pattern(pattern: u64) -> Self;

    // A sum with this word more.
    fn joined_to(self, sum: u64) -> u64;
}

impl Word for u16 {
    fn of_pattern(pattern: u64) -> u16 {
        (pattern % 65536) as u16
    }

    fn joined_to(self, sum: u64) -> u64 {
        joined(sum, u64::from(self))
    }
}

impl Word for f64 {
    fn of_pattern(pattern: u64) -> f64 {
        float_of(pattern)
    }

    // The two halves of the bits, the lower first. Every NaN counts as one pattern.
    fn joined_to(self, sum: u64) -> u64 {
        let bits = if self.is_nan() {
            0x7ff8_0000_0000_0000
        } else {
            self.to_bits()
        };
        joined(joined(sum, bits), bits / 0x1_0000_0000)
    }
}

// The sum with one word more: the factor is odd, so that no word that differs alone is lost.
fn joined(sum: u64, word: u64) -> u64 {
    (sum % 0x1_0000_0000 * 65599 + word % 0x1_0000_0000) % 0x1_0000_0000
}

// All of a slice, in one number.
pub fn sum<W: Word>(list: &[W]) -> u64 {
    list.iter().fold(0, |sum, word| word.joined_to(sum))
}

// A place past the slice is left out.
pub fn put<W: Word>(list: &mut [W], position: usize, pattern: u64) {
    if let Some(word) = list.get_mut(position) {
        *word = W::of_pattern(pattern);
    }
}

// A word for each corner that the edges of a face may meet. Where one face alone is tested they are cleared each time, so they are as narrow as they can be;
// where stamps tell the faces apart they are wide.
ghost use Rattle.std.specs.Prelude.{ℕ, ◌<◌, ◌^◌, ◌≡◌, List, get_or, set};
ghost use Rattle.rules.specs.Limits.{desk};
ghost use Rattle.space.specs.Closed.{PutReady};

use crate::words::ELEMENTS;

pub trait CornerWords {
    // What the words are as numbers, and below what each lies.
    ghost words: { Self → List ℕ };

    ghost top: { ℕ };

    fn word(&self, v: usize) -> u32
        requires { v < desk.elements }
        ensures { result ≡ get_or (words self.now) v 0 };

    fn put(&mut self, v: usize, word: u32)
        requires { PutReady top v word }
        ensures { words self.new ≡ set (words self.old) v word };
}

impl CornerWords for [u8; ELEMENTS] {
    ghost words = { λ ws. ws };

    ghost top = { 2 ^ 8 };

    fn word(&self, v: usize) -> u32 {
        u32::from(self[v])
    }

    fn put(&mut self, v: usize, word: u32) {
        self[v] = word as u8;
    }
}

impl CornerWords for [u16; ELEMENTS] {
    ghost words = { λ ws. ws };

    ghost top = { 2 ^ 16 };

    fn word(&self, v: usize) -> u32 {
        u32::from(self[v])
    }

    fn put(&mut self, v: usize, word: u32) {
        self[v] = word as u16;
    }
}

impl CornerWords for [u32; ELEMENTS] {
    ghost words = { λ ws. ws };

    ghost top = { 2 ^ 32 };

    fn word(&self, v: usize) -> u32 {
        self[v]
    }

    fn put(&mut self, v: usize, word: u32) {
        self[v] = word;
    }
}

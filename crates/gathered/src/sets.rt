// The one room of a cut, which every element uses in turn: flush answers of its boundary are counted, all other answers go to three sets. With them it keeps the cut's warning.
ghost use Rattle.std.specs.Prelude.{◌≡◌, Some};
ghost use Rattle.gathered.specs.Sets.{warning_in, numbers_in, empty_set, empty_room, emptied, SizedSet, Place, Included, IncludeReady, Noted, Cleared, OutputReady, OutputGathered};

use rules::{ElementCutOutput, ElementId};
use space::words::SET;

// Numbers in order, and never twice, with places for one more than a boundary has, so that rule 8 can refuse.
#[derive(Clone, Copy)]
pub struct Set {
    numbers: [u16; SET],
    size: usize,
}

// How many answers were flush and the last such element, whether a corner of the cut was a close call, and the sets of all other answers.
#[derive(Clone, Copy)]
pub struct Room {
    pub flushes: usize,
    pub flush: ElementId,
    pub warning: bool,
    pub inside: Set,
    pub outside: Set,
    pub intersections: Set,
}

impl Set {
    fn new() -> Self
        ensures { result ≡ empty_set }
    {
        Set {
            numbers: [0; SET],
            size: 0,
        }
    }

    fn clear(&mut self)
        ensures { self.new ≡ emptied self.old }
    {
        self.size = 0;
    }

    pub(crate) fn as_slice(&self) -> &[u16]
        requires { SizedSet self.now 33 }
        ensures { result.now ≡ numbers_in self.now }
    {
        &self.numbers[..self.size]
    }

    // The first place whose number is not below x, or the end.
    fn place(&self, x: u16) -> usize
        requires { SizedSet self.now 32 }
        ensures { Place self.now x result }
    {
        self.as_slice()
            .iter()
            .position(|y| x <= *y)
            .unwrap_or(self.size)
    }

    // A number that is there already is not put in again; those above it move up by one.
    fn insert(&mut self, x: u16)
        requires { SizedSet self.old 32 }
        ensures { Included self.old (Some (record { 0 = x })) self.new }
    {
        let at = self.place(x);
        let n = self.size;
        if at < n && self.numbers[at] == x {
            return;
        }
        self.numbers.copy_within(at..n, at + 1);
        self.numbers[at] = x;
        self.size = n + 1;
    }

    // None leaves the set as it is.
    pub(crate) fn include(&mut self, p: Option<ElementId>)
        requires { IncludeReady self.old p }
        ensures { Included self.old p self.new }
    {
        if let Some(e) = p {
            self.insert(e.0 as u16);
        }
    }
}

impl Room {
    // The room before anything was asked.
    pub fn new() -> Self
        ensures { result ≡ empty_room }
    {
        Room {
            flushes: 0,
            flush: ElementId(0),
            warning: false,
            inside: Set::new(),
            outside: Set::new(),
            intersections: Set::new(),
        }
    }

    // Whether a corner of the cut was a close call.
    pub fn has_warning(&self) -> bool
        ensures { result ≡ warning_in self.now }
    {
        self.warning
    }

    // A test's warning is the cut's.
    pub fn note(&mut self, warning: bool)
        ensures { Noted self.old warning self.new }
    {
        self.warning = self.warning || warning;
    }

    // Nothing is gathered; the cut's warning stays.
    pub fn clear(&mut self)
        ensures { Cleared self.old self.new }
    {
        self.flushes = 0;
        self.flush = ElementId(0);
        self.inside.clear();
        self.outside.clear();
        self.intersections.clear();
    }

    // The answer of boundary element b is counted, or goes to the sets.
    pub fn gather_in(&mut self, b: ElementId, a: ElementCutOutput)
        requires { OutputReady self.old b.0 a }
        ensures { OutputGathered self.old b.0 a self.new }
    {
        match a {
            ElementCutOutput::Flush => {
                self.flushes += 1;
                self.flush = b;
            }
            ElementCutOutput::NonFlush {
                inside,
                outside,
                intersection,
            } => {
                self.inside.include(inside);
                self.outside.include(outside);
                self.intersections.include(intersection);
            }
        }
    }
}

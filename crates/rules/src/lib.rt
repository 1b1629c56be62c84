// The types of document 01, by value. The rules over them are in specs/.

#![tactic(auto)]

ghost use Rattle.std.specs.Prelude.{◌≡◌};
ghost use Rattle.rules.specs.Refusals.{refusal_number};
ghost use Rattle.rules.specs.Replies.{fate_of};

// An element's number in its list.
#[derive(Clone, Copy, Debug, PartialEq, Eq, PartialOrd, Ord)]
pub struct ElementId(pub usize);

// A vertex's number: another list, so never an element's number.
#[derive(Clone, Copy, Debug, PartialEq, Eq, PartialOrd, Ord)]
pub struct VertexId(pub usize);

// A hyperplane's number, in a third list.
#[derive(Clone, Copy, Debug, PartialEq, Eq, PartialOrd, Ord)]
pub struct HyperplaneId(pub usize);

// A unit normal, zero past the dimension, and a distance.
#[derive(Clone, Copy)]
pub struct Hyperplane {
    pub normal: [f64; 4],
    pub distance: f64,
}

// Where a point stands to a hyperplane.
#[derive(Clone, Copy)]
pub enum Side {
    Inside,
    On,
    Outside,
}

// What the side test of a signed distance says: the side, and a warning where it was a close call.
#[derive(Clone, Copy)]
pub struct SideTest {
    pub side: Side,
    pub warning: bool,
}

// What an edge test answers: no crossing, or a crossing with its t, and a warning where an end was a close call.
#[derive(Clone, Copy)]
pub struct EdgeTest {
    pub crossing: Option<f64>,
    pub warning: bool,
}

// What becomes of what lies on one side of the divider.
#[derive(Clone, Copy)]
pub enum PolytopeFate {
    Remove,
    Keep,
}

impl From<bool> for PolytopeFate {
    ghost from_gives = { λ keep fate. fate ≡ fate_of keep };

    fn from(keep: bool) -> PolytopeFate {
        if keep {
            return PolytopeFate::Keep;
        }
        PolytopeFate::Remove
    }
}

// The parameters of a cut: its divider, and what becomes of each side.
#[derive(Clone, Copy)]
pub struct CutParams {
    pub divider: Hyperplane,
    pub inside: PolytopeFate,
    pub outside: PolytopeFate,
}

// The parameters of a cut, and the number of its divider's hyperplane.
#[derive(Clone, Copy)]
pub struct Cutter {
    pub params: CutParams,
    pub number: HyperplaneId,
}

// What a cut of an element gives: flush, or an element or none in each of three places.
#[derive(Clone, Copy)]
pub enum ElementCutOutput {
    Flush,
    NonFlush {
        inside: Option<ElementId>,
        outside: Option<ElementId>,
        intersection: Option<ElementId>,
    },
}

// What the cut of an element hands on: its output, and a warning where a corner that was tested for it was a close call.
#[derive(Clone, Copy)]
pub struct ElementAnswer {
    pub output: ElementCutOutput,
    pub warning: bool,
}

// Why a call is refused; its number is what a host is told.
#[derive(Clone, Copy, Debug, PartialEq, Eq)]
pub enum Refusal {
    Dimension,
    Radius,
    NotSound,
    NotInUse,
    Divider,
    Rank,
    NotClosed,
    VerticesFull,
    ElementsFull,
    HyperplanesFull,
    BoundaryFull,
    RoomShort,
    Layout,
    PrimordialFacet,
    OffGrid,
    ListLong,
}

impl From<Refusal> for u8 {
    ghost from_gives = { λ refusal number. number ≡ refusal_number refusal };

    fn from(refusal: Refusal) -> u8 {
        match refusal {
            Refusal::Dimension => 1,
            Refusal::Radius => 2,
            Refusal::NotSound => 3,
            Refusal::NotInUse => 4,
            Refusal::Divider => 5,
            Refusal::Rank => 6,
            Refusal::NotClosed => 7,
            Refusal::VerticesFull => 8,
            Refusal::ElementsFull => 9,
            Refusal::HyperplanesFull => 10,
            Refusal::BoundaryFull => 11,
            Refusal::RoomShort => 12,
            Refusal::Layout => 13,
            Refusal::PrimordialFacet => 16,
            Refusal::OffGrid => 25,
            Refusal::ListLong => 26,
        }
    }
}

// The whole public reply of a call: what it gives, or why it is refused. A list's reply gives how many entries were written.
pub type Reply<T> = Result<T, Refusal>;

// The whole public reply of a list of cuts: refused before any cut, stopped at a cut that is refused, or all cuts answered.
// Three cases, and a stop too has made cuts: no Result.
#[derive(Clone, Copy)]
pub enum CutListReply {
    Refused(Refusal),
    Stopped { refusal: Refusal, position: usize },
    Answered(usize),
}

// Where the corners of an element lie to a plane.
#[derive(Clone, Copy)]
pub enum Touch {
    AllOn,
    InsideOrOn,
    OutsideOrOn,
    Both,
}

// What a touch gives: the answer, and how many corners were tested.
#[derive(Clone, Copy)]
pub struct Touched {
    pub answer: Touch,
    pub tested: usize,
}

// The inputs, by bit patterns. Written by tests/floats/make_expected.py: change them there.
// NEG_x is x with the other sign; x_UP and x_DOWN are the next floats away from zero and towards it.
use crate::cases::{Edge, Normal, PlaneSearch, PointSearch, TwoPlanes, TwoPoints};

const ZERO: u64 = 0x0000000000000000;

const NEG_ZERO: u64 = 0x8000000000000000;

const TINY: u64 = 0x0000000000000001;

const NEG_TINY: u64 = 0x8000000000000001;

const TINY_UP: u64 = 0x0000000000000002;

const SUBNORMAL: u64 = 0x000fffffffffffff;

const NEG_SUBNORMAL: u64 = 0x800fffffffffffff;

const NORMAL: u64 = 0x0010000000000000;

const ROOT_HALF: u64 = 0x1e50000000000000;

const NEG_ROOT_HALF: u64 = 0x9e50000000000000;

const ROOT_HALF_UP: u64 = 0x1e50000000000001;

const ROOT: u64 = 0x1e60000000000000;

const NARROW_HALF_DOWN: u64 = 0x368fffffffffffff;

const NARROW_HALF: u64 = 0x3690000000000000;

const NEG_NARROW_HALF: u64 = 0xb690000000000000;

const NARROW_HALF_UP: u64 = 0x3690000000000001;

const NARROW_TINY_DOWN: u64 = 0x369fffffffffffff;

const NARROW_TINY: u64 = 0x36a0000000000000;

const NEG_NARROW_TINY: u64 = 0xb6a0000000000000;

const NARROW_TINY_UP: u64 = 0x36a0000000000001;

const NARROW_TIE_LOW_DOWN: u64 = 0x36a7ffffffffffff;

const NARROW_TIE_LOW: u64 = 0x36a8000000000000;

const NEG_NARROW_TIE_LOW: u64 = 0xb6a8000000000000;

const NARROW_TIE_LOW_UP: u64 = 0x36a8000000000001;

const NARROW_TIE_EVEN_DOWN: u64 = 0x36b3ffffffffffff;

const NARROW_TIE_EVEN: u64 = 0x36b4000000000000;

const NEG_NARROW_TIE_EVEN: u64 = 0xb6b4000000000000;

const NARROW_TIE_EVEN_UP: u64 = 0x36b4000000000001;

const NARROW_SUBNORMAL_DOWN: u64 = 0x380fffffbfffffff;

const NARROW_SUBNORMAL: u64 = 0x380fffffc0000000;

const NEG_NARROW_SUBNORMAL: u64 = 0xb80fffffc0000000;

const NARROW_SUBNORMAL_UP: u64 = 0x380fffffc0000001;

const NARROW_TIE_NORMAL_DOWN: u64 = 0x380fffffdfffffff;

const NARROW_TIE_NORMAL: u64 = 0x380fffffe0000000;

const NEG_NARROW_TIE_NORMAL: u64 = 0xb80fffffe0000000;

const NARROW_TIE_NORMAL_UP: u64 = 0x380fffffe0000001;

const NARROW_NORMAL_DOWN: u64 = 0x380fffffffffffff;

const NARROW_NORMAL: u64 = 0x3810000000000000;

const NEG_NARROW_NORMAL: u64 = 0xb810000000000000;

const NARROW_NORMAL_UP: u64 = 0x3810000000000001;

const T_DOWN: u64 = 0x3eafffffffffffff;

const NEG_T_DOWN: u64 = 0xbeafffffffffffff;

const T: u64 = 0x3eb0000000000000;

const NEG_T: u64 = 0xbeb0000000000000;

const T_UP: u64 = 0x3eb0000000000001;

const NEG_T_UP: u64 = 0xbeb0000000000001;

const T_UP_UP: u64 = 0x3eb0000000000002;

const CLOSE_DOWN: u64 = 0x3eefffffffffffff;

const NEG_CLOSE_DOWN: u64 = 0xbeefffffffffffff;

const CLOSE: u64 = 0x3ef0000000000000;

const NEG_CLOSE: u64 = 0xbef0000000000000;

const CLOSE_UP: u64 = 0x3ef0000000000001;

const NEG_CLOSE_UP: u64 = 0xbef0000000000001;

const EDGE: u64 = 0x3f50000000000000;

const EDGE_TIE: u64 = 0x3f50000000040000;

const EDGE_TIE_UP: u64 = 0x3f50000000040001;

const EDGE_OVER: u64 = 0x3f50000000080000;

const TENTH: u64 = 0x3fb999999999999a;

const NEG_TENTH: u64 = 0xbfb999999999999a;

const THIRD: u64 = 0x3fd5555555555555;

const NEG_THIRD: u64 = 0xbfd5555555555555;

const HALF: u64 = 0x3fe0000000000000;

const NEG_HALF: u64 = 0xbfe0000000000000;

const HALF_UP: u64 = 0x3fe0000000000001;

const SIX_TENTHS: u64 = 0x3fe3333333333333;

const EIGHT_TENTHS: u64 = 0x3fe999999999999a;

const NEG_EIGHT_TENTHS: u64 = 0xbfe999999999999a;

const UNDER_DOWN: u64 = 0x3feffffdffffffff;

const UNDER: u64 = 0x3feffffe00000000;

const UNDER_UP: u64 = 0x3feffffe00000001;

const NEG_SHORT_DOWN: u64 = 0xbfeffffefffffbff;

const SHORT: u64 = 0x3feffffefffffc00;

const SHORT_UP: u64 = 0x3feffffefffffc01;

const ONE_DOWN: u64 = 0x3fefffffffffffff;

const ONE: u64 = 0x3ff0000000000000;

const NEG_ONE: u64 = 0xbff0000000000000;

const ONE_UP: u64 = 0x3ff0000000000001;

const NEG_ONE_UP: u64 = 0xbff0000000000001;

const ONE_UP_UP: u64 = 0x3ff0000000000002;

const NARROW_ONE_TIE_DOWN: u64 = 0x3ff000000fffffff;

const NARROW_ONE_TIE: u64 = 0x3ff0000010000000;

const NEG_NARROW_ONE_TIE: u64 = 0xbff0000010000000;

const NARROW_ONE_TIE_UP: u64 = 0x3ff0000010000001;

const NARROW_ODD_TIE_DOWN: u64 = 0x3ff000002fffffff;

const NARROW_ODD_TIE: u64 = 0x3ff0000030000000;

const NEG_NARROW_ODD_TIE: u64 = 0xbff0000030000000;

const NARROW_ODD_TIE_UP: u64 = 0x3ff0000030000001;

const OVER_DOWN: u64 = 0x3ff00000ffffffff;

const OVER: u64 = 0x3ff0000100000000;

const OVER_UP: u64 = 0x3ff0000100000001;

const FOURTEEN_TENTHS: u64 = 0x3ff6666666666666;

const NARROW_CARRY_DOWN: u64 = 0x3fffffffefffffff;

const NARROW_CARRY: u64 = 0x3ffffffff0000000;

const NEG_NARROW_CARRY: u64 = 0xbffffffff0000000;

const NARROW_CARRY_UP: u64 = 0x3ffffffff0000001;

const TWO: u64 = 0x4000000000000000;

const NEG_TWO: u64 = 0xc000000000000000;

const THREE: u64 = 0x4008000000000000;

const NEG_THREE: u64 = 0xc008000000000000;

const NARROW_FAR_TIE_DOWN: u64 = 0x40efffffefffffff;

const NARROW_FAR_TIE: u64 = 0x40effffff0000000;

const NEG_NARROW_FAR_TIE: u64 = 0xc0effffff0000000;

const NARROW_FAR_TIE_UP: u64 = 0x40effffff0000001;

const FAR_DOWN: u64 = 0x40efffffffffffff;

const FAR: u64 = 0x40f0000000000000;

const NEG_FAR: u64 = 0xc0f0000000000000;

const FAR_UP: u64 = 0x40f0000000000001;

const NEG_FAR_UP: u64 = 0xc0f0000000000001;

const FAR_T: u64 = 0x40f0000000010000;

const FAR_T_UP: u64 = 0x40f0000000010001;

const NEG_FAR_T_UP: u64 = 0xc0f0000000010001;

const PLANE_DOWN: u64 = 0x410fffffffffffff;

const NEG_PLANE_DOWN: u64 = 0xc10fffffffffffff;

const PLANE: u64 = 0x4110000000000000;

const NEG_PLANE: u64 = 0xc110000000000000;

const PLANE_UP: u64 = 0x4110000000000001;

const NEG_PLANE_UP: u64 = 0xc110000000000001;

const PLANE_T_DOWN: u64 = 0x4110000000003fff;

const PLANE_T: u64 = 0x4110000000004000;

const PLANE_T_UP: u64 = 0x4110000000004001;

const NEG_PLANE_T_UP: u64 = 0xc110000000004001;

const BIG: u64 = 0x4341c37937e08000;

const NEG_BIG: u64 = 0xc341c37937e08000;

const BIG_UP: u64 = 0x4341c37937e08001;

const NARROW_LARGEST_DOWN: u64 = 0x47efffffdfffffff;

const NARROW_LARGEST: u64 = 0x47efffffe0000000;

const NEG_NARROW_LARGEST: u64 = 0xc7efffffe0000000;

const NARROW_LARGEST_UP: u64 = 0x47efffffe0000001;

const NARROW_OVER_DOWN: u64 = 0x47efffffefffffff;

const NARROW_OVER: u64 = 0x47effffff0000000;

const NEG_NARROW_OVER: u64 = 0xc7effffff0000000;

const NARROW_OVER_UP: u64 = 0x47effffff0000001;

const NARROW_PAST_DOWN: u64 = 0x47efffffffffffff;

const NARROW_PAST: u64 = 0x47f0000000000000;

const NEG_NARROW_PAST: u64 = 0xc7f0000000000000;

const NARROW_PAST_UP: u64 = 0x47f0000000000001;

const STEP_DOWN: u64 = 0x7c8fffffffffffff;

const STEP: u64 = 0x7c90000000000000;

const MAX_DOWN: u64 = 0x7feffffffffffffe;

const MAX: u64 = 0x7fefffffffffffff;

const NEG_MAX: u64 = 0xffefffffffffffff;

const INF: u64 = 0x7ff0000000000000;

const NEG_INF: u64 = 0xfff0000000000000;

const NAN: u64 = 0x7ff8000000000000;

// x.
pub const ONES: [u64; 40] = [
    ZERO,
    NEG_ZERO,
    TINY,
    NEG_TINY,
    SUBNORMAL,
    NEG_SUBNORMAL,
    NORMAL,
    T_DOWN,
    T,
    T_UP,
    NEG_T_DOWN,
    NEG_T,
    NEG_T_UP,
    CLOSE_DOWN,
    CLOSE,
    CLOSE_UP,
    NEG_CLOSE_DOWN,
    NEG_CLOSE,
    NEG_CLOSE_UP,
    UNDER,
    ONE_DOWN,
    ONE,
    ONE_UP,
    OVER,
    NEG_ONE,
    FAR_DOWN,
    FAR,
    FAR_UP,
    NEG_FAR,
    PLANE_DOWN,
    PLANE,
    PLANE_UP,
    NEG_PLANE_DOWN,
    NEG_PLANE,
    NEG_PLANE_UP,
    MAX,
    NEG_MAX,
    INF,
    NEG_INF,
    NAN,
];

// Two floats.
pub const PAIRS: [[u64; 2]; 89] = [
    [ZERO, ZERO],
    [ZERO, NEG_ZERO],
    [NEG_ZERO, ZERO],
    [NEG_ZERO, NEG_ZERO],
    [ZERO, TINY],
    [TINY, ZERO],
    [TINY, NEG_TINY],
    [TINY, TINY_UP],
    [SUBNORMAL, NORMAL],
    [NEG_ONE, ZERO],
    [T, T],
    [T, T_UP],
    [T, T_DOWN],
    [T, NEG_T],
    [T, NEG_T_DOWN],
    [T, NEG_T_UP],
    [NEG_T, NEG_T],
    [ONE, ONE],
    [ONE, ONE_UP],
    [ONE, NEG_ONE_UP],
    [ONE_DOWN, ONE],
    [FAR, FAR],
    [FAR, FAR_UP],
    [FAR, NEG_FAR_UP],
    [FAR, FAR_T],
    [FAR, FAR_T_UP],
    [FAR_T, FAR],
    [FAR_T_UP, FAR],
    [PLANE, PLANE_UP],
    [PLANE, NEG_PLANE_UP],
    [PLANE, PLANE_T],
    [PLANE, PLANE_T_UP],
    [PLANE_T_DOWN, PLANE],
    [ONE, OVER],
    [ONE, OVER_UP],
    [ONE, OVER_DOWN],
    [OVER, ONE],
    [OVER_UP, ONE],
    [ONE, UNDER],
    [ONE, UNDER_DOWN],
    [UNDER, ONE],
    [UNDER_DOWN, ONE],
    [UNDER_UP, ONE],
    [ZERO, T],
    [ZERO, T_UP],
    [ZERO, NEG_T_UP],
    [T_UP, ZERO],
    [T_UP, TINY],
    [T, NEG_TINY],
    [T, NEG_SUBNORMAL],
    [BIG, BIG],
    [BIG, BIG_UP],
    [MAX, MAX],
    [MAX, MAX_DOWN],
    [MAX, NEG_MAX],
    [NEG_MAX, MAX],
    [MAX, INF],
    [INF, MAX],
    [INF, INF],
    [INF, NEG_INF],
    [NEG_INF, INF],
    [NEG_INF, NEG_INF],
    [INF, NAN],
    [NAN, INF],
    [NAN, NAN],
    [NAN, ZERO],
    [ZERO, NAN],
    [NEG_ONE, ONE],
    [ONE, NEG_ONE],
    [NEG_ONE, TWO],
    [TWO, NEG_ONE],
    [NEG_ONE, TENTH],
    [TENTH, NEG_THIRD],
    [NEG_THREE, SIX_TENTHS],
    [NEG_T_UP, T_UP],
    [NEG_T, T_UP],
    [NEG_T_UP, T],
    [T_UP, NEG_T_UP],
    [NEG_T_UP, NAN],
    [CLOSE, NEG_ONE],
    [ONE, NEG_CLOSE],
    [NEG_CLOSE_UP, CLOSE_UP],
    [NAN, NEG_ONE],
    [NEG_ONE, INF],
    [INF, NEG_ONE],
    [NEG_INF, ONE],
    [NEG_MAX, T_UP],
    [NEG_T_UP, MAX],
    [MAX, NEG_T_UP],
];

// The ends a and b, and x.
pub const CLAMPS: [[u64; 3]; 40] = [
    [ZERO, ONE, HALF],
    [ZERO, ONE, ZERO],
    [ZERO, ONE, ONE],
    [ZERO, ONE, TWO],
    [ZERO, ONE, NEG_ONE],
    [ONE, ZERO, TWO],
    [ONE, ZERO, NEG_ONE],
    [ZERO, ONE, NAN],
    [ONE, ZERO, NAN],
    [ZERO, ONE, ONE_UP],
    [ZERO, ONE, NEG_TINY],
    [ZERO, ONE, NEG_ZERO],
    [ZERO, ONE, INF],
    [ZERO, ONE, NEG_INF],
    [ONE, ONE, ONE],
    [ONE, ONE, ONE_UP],
    [ONE, ONE, ONE_DOWN],
    [ONE, ONE, NAN],
    [ZERO, NEG_ZERO, NAN],
    [NEG_ZERO, ZERO, NAN],
    [ZERO, NEG_ZERO, TINY],
    [NEG_ZERO, ZERO, TINY],
    [ZERO, NEG_ZERO, NEG_TINY],
    [NEG_ZERO, ZERO, NEG_TINY],
    [ZERO, NEG_ZERO, NEG_ZERO],
    [TINY, SUBNORMAL, NORMAL],
    [SUBNORMAL, TINY, ZERO],
    [NEG_FAR, FAR, NEG_FAR_UP],
    [FAR, FAR, FAR_UP],
    [NEG_MAX, MAX, INF],
    [NEG_MAX, MAX, NEG_INF],
    [INF, NEG_INF, ZERO],
    [NEG_INF, INF, NAN],
    [INF, INF, MAX],
    [NEG_INF, NEG_INF, NEG_MAX],
    [NAN, ONE, TWO],
    [NAN, ONE, NEG_ONE],
    [NAN, ONE, NAN],
    [ONE, NAN, TWO],
    [ONE, NAN, NAN],
];

// Two points.
pub const ENDS: [TwoPoints; 46] = [
    TwoPoints {
        dimension: 0,
        t: THIRD,
        a: [ONE, TWO, THREE, HALF],
        b: [TENTH, THIRD, NEG_ONE, FAR],
    },
    TwoPoints {
        dimension: 1,
        t: THIRD,
        a: [ONE, TWO, THREE, HALF],
        b: [TENTH, THIRD, NEG_ONE, FAR],
    },
    TwoPoints {
        dimension: 2,
        t: THIRD,
        a: [ONE, TWO, THREE, HALF],
        b: [TENTH, THIRD, NEG_ONE, FAR],
    },
    TwoPoints {
        dimension: 3,
        t: THIRD,
        a: [ONE, TWO, THREE, HALF],
        b: [TENTH, THIRD, NEG_ONE, FAR],
    },
    TwoPoints {
        dimension: 4,
        t: THIRD,
        a: [ONE, TWO, THREE, HALF],
        b: [TENTH, THIRD, NEG_ONE, FAR],
    },
    TwoPoints {
        dimension: 5,
        t: THIRD,
        a: [ONE, TWO, THREE, HALF],
        b: [TENTH, THIRD, NEG_ONE, FAR],
    },
    TwoPoints {
        dimension: 6,
        t: THIRD,
        a: [ONE, TWO, THREE, HALF],
        b: [TENTH, THIRD, NEG_ONE, FAR],
    },
    TwoPoints {
        dimension: 4,
        t: TENTH,
        a: [BIG, ONE, NEG_BIG, ONE],
        b: [ONE, ONE, ONE, ONE],
    },
    TwoPoints {
        dimension: 4,
        t: TENTH,
        a: [ONE, BIG, ONE, NEG_BIG],
        b: [ONE, ONE, ONE, ONE],
    },
    TwoPoints {
        dimension: 4,
        t: TENTH,
        a: [BIG, NEG_BIG, ONE, ONE],
        b: [ONE, ONE, ONE, ONE],
    },
    TwoPoints {
        dimension: 4,
        t: TENTH,
        a: [ONE, ONE, BIG, NEG_BIG],
        b: [ONE, ONE, ONE, ONE],
    },
    TwoPoints {
        dimension: 2,
        t: HALF,
        a: [NEG_ONE, ONE_UP, ZERO, ZERO],
        b: [ONE_UP_UP, ONE_UP, ZERO, ZERO],
    },
    TwoPoints {
        dimension: 1,
        t: ONE,
        a: [ROOT, ZERO, ZERO, ZERO],
        b: [ROOT, ZERO, ZERO, ZERO],
    },
    TwoPoints {
        dimension: 1,
        t: ONE,
        a: [ROOT, ZERO, ZERO, ZERO],
        b: [ROOT_HALF, ZERO, ZERO, ZERO],
    },
    TwoPoints {
        dimension: 1,
        t: ONE,
        a: [ROOT, ZERO, ZERO, ZERO],
        b: [ROOT_HALF_UP, ZERO, ZERO, ZERO],
    },
    TwoPoints {
        dimension: 2,
        t: ONE,
        a: [ROOT, NEG_ROOT_HALF, ZERO, ZERO],
        b: [ROOT, ROOT_HALF, ZERO, ZERO],
    },
    TwoPoints {
        dimension: 4,
        t: ONE,
        a: [ROOT_HALF, ROOT_HALF, ROOT_HALF, ROOT_HALF],
        b: [ROOT, ROOT, ROOT, ROOT],
    },
    TwoPoints {
        dimension: 1,
        t: ONE,
        a: [NEG_ZERO, ZERO, ZERO, ZERO],
        b: [ONE, ZERO, ZERO, ZERO],
    },
    TwoPoints {
        dimension: 2,
        t: ONE,
        a: [MAX, MAX, ZERO, ZERO],
        b: [TWO, NEG_TWO, ZERO, ZERO],
    },
    TwoPoints {
        dimension: 2,
        t: ONE,
        a: [MAX, MAX, ZERO, ZERO],
        b: [ONE, ONE, ZERO, ZERO],
    },
    TwoPoints {
        dimension: 2,
        t: ONE,
        a: [MAX, STEP, ZERO, ZERO],
        b: [ONE, ONE, ZERO, ZERO],
    },
    TwoPoints {
        dimension: 2,
        t: ONE,
        a: [MAX, STEP_DOWN, ZERO, ZERO],
        b: [ONE, ONE, ZERO, ZERO],
    },
    TwoPoints {
        dimension: 2,
        t: HALF,
        a: [INF, ONE, ZERO, ZERO],
        b: [ZERO, ONE, ZERO, ZERO],
    },
    TwoPoints {
        dimension: 2,
        t: HALF,
        a: [INF, NEG_INF, ZERO, ZERO],
        b: [INF, NEG_INF, ZERO, ZERO],
    },
    TwoPoints {
        dimension: 2,
        t: HALF,
        a: [NAN, ONE, ZERO, ZERO],
        b: [NAN, ONE, ZERO, ZERO],
    },
    TwoPoints {
        dimension: 2,
        t: HALF,
        a: [NAN, ONE, ZERO, ZERO],
        b: [ONE, NAN, ZERO, ZERO],
    },
    TwoPoints {
        dimension: 4,
        t: HALF,
        a: [ZERO, NEG_ZERO, ZERO, NEG_ZERO],
        b: [NEG_ZERO, ZERO, ZERO, NEG_ZERO],
    },
    TwoPoints {
        dimension: 4,
        t: NEG_ONE,
        a: [ONE, OVER, UNDER, ZERO],
        b: [ONE, ONE, ONE, T],
    },
    TwoPoints {
        dimension: 4,
        t: TWO,
        a: [ONE, OVER, UNDER, ZERO],
        b: [ONE, ONE, ONE, T_UP],
    },
    TwoPoints {
        dimension: 3,
        t: TWO,
        a: [ONE, OVER, UNDER, ZERO],
        b: [ONE, ONE, ONE, T_UP],
    },
    TwoPoints {
        dimension: 4,
        t: TINY,
        a: [ONE_UP, ONE, ONE, ONE],
        b: [THREE, ONE, ONE, ONE],
    },
    TwoPoints {
        dimension: 2,
        t: NAN,
        a: [ZERO, ONE, ZERO, ZERO],
        b: [ONE, ZERO, ZERO, ZERO],
    },
    TwoPoints {
        dimension: 2,
        t: INF,
        a: [ZERO, ONE, ZERO, ZERO],
        b: [ONE, ZERO, ZERO, ZERO],
    },
    TwoPoints {
        dimension: 2,
        t: NEG_INF,
        a: [ZERO, ONE, ZERO, ZERO],
        b: [ONE, ZERO, ZERO, ZERO],
    },
    TwoPoints {
        dimension: 2,
        t: NEG_ONE,
        a: [ZERO, ONE, ZERO, ZERO],
        b: [ONE, ZERO, ZERO, ZERO],
    },
    TwoPoints {
        dimension: 2,
        t: TWO,
        a: [ZERO, ONE, ZERO, ZERO],
        b: [ONE, ZERO, ZERO, ZERO],
    },
    TwoPoints {
        dimension: 2,
        t: ZERO,
        a: [TENTH, THREE, ZERO, ZERO],
        b: [THREE, TENTH, ZERO, ZERO],
    },
    TwoPoints {
        dimension: 2,
        t: NEG_ZERO,
        a: [TENTH, NEG_ZERO, ZERO, ZERO],
        b: [THREE, ONE, ZERO, ZERO],
    },
    TwoPoints {
        dimension: 2,
        t: ONE,
        a: [TENTH, THIRD, ZERO, ZERO],
        b: [THREE, NEG_TENTH, ZERO, ZERO],
    },
    TwoPoints {
        dimension: 2,
        t: ONE_UP,
        a: [TENTH, THIRD, ZERO, ZERO],
        b: [THREE, NEG_TENTH, ZERO, ZERO],
    },
    TwoPoints {
        dimension: 2,
        t: ONE_DOWN,
        a: [TENTH, THIRD, ZERO, ZERO],
        b: [THREE, NEG_TENTH, ZERO, ZERO],
    },
    TwoPoints {
        dimension: 2,
        t: ONE,
        a: [BIG, ONE, ZERO, ZERO],
        b: [ONE, BIG, ZERO, ZERO],
    },
    TwoPoints {
        dimension: 2,
        t: THIRD,
        a: [THREE, NEG_FAR, ZERO, ZERO],
        b: [THREE, NEG_FAR, ZERO, ZERO],
    },
    TwoPoints {
        dimension: 2,
        t: INF,
        a: [THREE, NEG_FAR, ZERO, ZERO],
        b: [THREE, NEG_FAR, ZERO, ZERO],
    },
    TwoPoints {
        dimension: 3,
        t: HALF,
        a: [NEG_MAX, MAX, SUBNORMAL, ZERO],
        b: [MAX, NEG_MAX, NORMAL, ZERO],
    },
    TwoPoints {
        dimension: 3,
        t: ZERO,
        a: [NEG_MAX, MAX, TINY, ZERO],
        b: [MAX, NEG_MAX, NEG_TINY, ZERO],
    },
];

// A hyperplane, and two points.
pub const EDGES: [Edge; 27] = [
    Edge {
        dimension: 0,
        distance: HALF,
        normal: [SIX_TENTHS, EIGHT_TENTHS, THIRD, TENTH],
        a: [ONE, TWO, THREE, FAR],
        b: [NEG_ONE, NEG_TWO, TENTH, NEG_FAR],
    },
    Edge {
        dimension: 1,
        distance: HALF,
        normal: [SIX_TENTHS, EIGHT_TENTHS, THIRD, TENTH],
        a: [ONE, TWO, THREE, FAR],
        b: [NEG_ONE, NEG_TWO, TENTH, NEG_FAR],
    },
    Edge {
        dimension: 2,
        distance: HALF,
        normal: [SIX_TENTHS, EIGHT_TENTHS, THIRD, TENTH],
        a: [ONE, TWO, THREE, FAR],
        b: [NEG_ONE, NEG_TWO, TENTH, NEG_FAR],
    },
    Edge {
        dimension: 3,
        distance: HALF,
        normal: [SIX_TENTHS, EIGHT_TENTHS, THIRD, TENTH],
        a: [ONE, TWO, THREE, FAR],
        b: [NEG_ONE, NEG_TWO, TENTH, NEG_FAR],
    },
    Edge {
        dimension: 4,
        distance: HALF,
        normal: [SIX_TENTHS, EIGHT_TENTHS, THIRD, TENTH],
        a: [ONE, TWO, THREE, FAR],
        b: [NEG_ONE, NEG_TWO, TENTH, NEG_FAR],
    },
    Edge {
        dimension: 5,
        distance: HALF,
        normal: [SIX_TENTHS, EIGHT_TENTHS, THIRD, TENTH],
        a: [ONE, TWO, THREE, FAR],
        b: [NEG_ONE, NEG_TWO, TENTH, NEG_FAR],
    },
    Edge {
        dimension: 6,
        distance: HALF,
        normal: [SIX_TENTHS, EIGHT_TENTHS, THIRD, TENTH],
        a: [ONE, TWO, THREE, FAR],
        b: [NEG_ONE, NEG_TWO, TENTH, NEG_FAR],
    },
    Edge {
        dimension: 1,
        distance: ZERO,
        normal: [ONE, ZERO, ZERO, ZERO],
        a: [T, ZERO, ZERO, ZERO],
        b: [NEG_T_UP, ZERO, ZERO, ZERO],
    },
    Edge {
        dimension: 1,
        distance: ZERO,
        normal: [ONE, ZERO, ZERO, ZERO],
        a: [T_UP, ZERO, ZERO, ZERO],
        b: [NEG_T_UP, ZERO, ZERO, ZERO],
    },
    Edge {
        dimension: 1,
        distance: ZERO,
        normal: [ONE, ZERO, ZERO, ZERO],
        a: [NEG_T_UP, ZERO, ZERO, ZERO],
        b: [T_UP, ZERO, ZERO, ZERO],
    },
    Edge {
        dimension: 1,
        distance: ZERO,
        normal: [NEG_ONE, ZERO, ZERO, ZERO],
        a: [T_UP, ZERO, ZERO, ZERO],
        b: [NEG_T_UP, ZERO, ZERO, ZERO],
    },
    Edge {
        dimension: 1,
        distance: ONE,
        normal: [ONE, ZERO, ZERO, ZERO],
        a: [OVER, ZERO, ZERO, ZERO],
        b: [UNDER_DOWN, ZERO, ZERO, ZERO],
    },
    Edge {
        dimension: 1,
        distance: ONE,
        normal: [ONE, ZERO, ZERO, ZERO],
        a: [OVER_UP, ZERO, ZERO, ZERO],
        b: [UNDER_DOWN, ZERO, ZERO, ZERO],
    },
    Edge {
        dimension: 1,
        distance: NEG_ZERO,
        normal: [ONE, ZERO, ZERO, ZERO],
        a: [NEG_ZERO, ZERO, ZERO, ZERO],
        b: [ZERO, ZERO, ZERO, ZERO],
    },
    Edge {
        dimension: 1,
        distance: ZERO,
        normal: [NEG_ONE, ZERO, ZERO, ZERO],
        a: [ZERO, ZERO, ZERO, ZERO],
        b: [TINY, ZERO, ZERO, ZERO],
    },
    Edge {
        dimension: 2,
        distance: FOURTEEN_TENTHS,
        normal: [SIX_TENTHS, EIGHT_TENTHS, ZERO, ZERO],
        a: [ONE, ONE, ZERO, ZERO],
        b: [NEG_ONE, NEG_ONE, ZERO, ZERO],
    },
    Edge {
        dimension: 2,
        distance: ZERO,
        normal: [SIX_TENTHS, EIGHT_TENTHS, ZERO, ZERO],
        a: [FAR, NEG_FAR, ZERO, ZERO],
        b: [NEG_FAR, FAR, ZERO, ZERO],
    },
    Edge {
        dimension: 3,
        distance: ONE,
        normal: [ONE, ONE, ONE, ZERO],
        a: [BIG, ONE, NEG_BIG, ZERO],
        b: [BIG, NEG_BIG, ONE, ZERO],
    },
    Edge {
        dimension: 4,
        distance: HALF,
        normal: [HALF, HALF, HALF, HALF],
        a: [BIG, THREE, NEG_BIG, NEG_THREE],
        b: [BIG, NEG_BIG, THREE, THREE],
    },
    Edge {
        dimension: 2,
        distance: PLANE,
        normal: [ONE, ZERO, ZERO, ZERO],
        a: [PLANE_T_UP, ZERO, ZERO, ZERO],
        b: [FAR, NEG_FAR, ZERO, ZERO],
    },
    Edge {
        dimension: 1,
        distance: NEG_MAX,
        normal: [ONE, ZERO, ZERO, ZERO],
        a: [MAX, ZERO, ZERO, ZERO],
        b: [NEG_MAX, ZERO, ZERO, ZERO],
    },
    Edge {
        dimension: 2,
        distance: INF,
        normal: [ONE, ZERO, ZERO, ZERO],
        a: [FAR, FAR, ZERO, ZERO],
        b: [INF, FAR, ZERO, ZERO],
    },
    Edge {
        dimension: 2,
        distance: NEG_INF,
        normal: [ONE, ZERO, ZERO, ZERO],
        a: [FAR, FAR, ZERO, ZERO],
        b: [NEG_INF, FAR, ZERO, ZERO],
    },
    Edge {
        dimension: 1,
        distance: NAN,
        normal: [ONE, ZERO, ZERO, ZERO],
        a: [FAR, ZERO, ZERO, ZERO],
        b: [NEG_FAR, ZERO, ZERO, ZERO],
    },
    Edge {
        dimension: 2,
        distance: ONE,
        normal: [ONE, ZERO, ZERO, ZERO],
        a: [NAN, ZERO, ZERO, ZERO],
        b: [ZERO, INF, ZERO, ZERO],
    },
    Edge {
        dimension: 2,
        distance: ONE,
        normal: [ONE, TINY, ZERO, ZERO],
        a: [NAN, ZERO, ZERO, ZERO],
        b: [NEG_ONE, MAX, ZERO, ZERO],
    },
    Edge {
        dimension: 2,
        distance: ONE,
        normal: [ROOT, ROOT_HALF, ZERO, ZERO],
        a: [ROOT, ROOT, ZERO, ZERO],
        b: [MAX, MAX, ZERO, ZERO],
    },
];

// A normal.
pub const NORMALS: [Normal; 30] = [
    Normal {
        dimension: 0,
        normal: [ZERO, ZERO, ZERO, ZERO],
    },
    Normal {
        dimension: 0,
        normal: [ONE, ZERO, ZERO, ZERO],
    },
    Normal {
        dimension: 1,
        normal: [ONE, ZERO, ZERO, ZERO],
    },
    Normal {
        dimension: 1,
        normal: [NEG_ONE, ZERO, ZERO, ZERO],
    },
    Normal {
        dimension: 1,
        normal: [ONE_DOWN, ZERO, ZERO, ZERO],
    },
    Normal {
        dimension: 1,
        normal: [ONE_UP, ZERO, ZERO, ZERO],
    },
    Normal {
        dimension: 1,
        normal: [NEG_ONE_UP, ZERO, ZERO, ZERO],
    },
    Normal {
        dimension: 1,
        normal: [SHORT, ZERO, ZERO, ZERO],
    },
    Normal {
        dimension: 1,
        normal: [NEG_SHORT_DOWN, ZERO, ZERO, ZERO],
    },
    Normal {
        dimension: 1,
        normal: [SHORT_UP, ZERO, ZERO, ZERO],
    },
    Normal {
        dimension: 1,
        normal: [SIX_TENTHS, EIGHT_TENTHS, ZERO, ZERO],
    },
    Normal {
        dimension: 2,
        normal: [SIX_TENTHS, EIGHT_TENTHS, ZERO, ZERO],
    },
    Normal {
        dimension: 3,
        normal: [SIX_TENTHS, NEG_EIGHT_TENTHS, ZERO, ZERO],
    },
    Normal {
        dimension: 2,
        normal: [ONE, EDGE, ZERO, ZERO],
    },
    Normal {
        dimension: 2,
        normal: [EDGE, ONE, ZERO, ZERO],
    },
    Normal {
        dimension: 2,
        normal: [ONE, EDGE_TIE, ZERO, ZERO],
    },
    Normal {
        dimension: 2,
        normal: [ONE, EDGE_TIE_UP, ZERO, ZERO],
    },
    Normal {
        dimension: 2,
        normal: [ONE, EDGE_OVER, ZERO, ZERO],
    },
    Normal {
        dimension: 2,
        normal: [ONE, ONE, ZERO, ZERO],
    },
    Normal {
        dimension: 2,
        normal: [ONE, TINY, ZERO, ZERO],
    },
    Normal {
        dimension: 2,
        normal: [ONE, ZERO, NEG_ZERO, ZERO],
    },
    Normal {
        dimension: 3,
        normal: [ONE, ZERO, NEG_ZERO, ZERO],
    },
    Normal {
        dimension: 2,
        normal: [ONE, ZERO, ZERO, TINY],
    },
    Normal {
        dimension: 3,
        normal: [ONE, ZERO, ZERO, NAN],
    },
    Normal {
        dimension: 4,
        normal: [ONE, ZERO, ZERO, NAN],
    },
    Normal {
        dimension: 4,
        normal: [NEG_INF, ZERO, ZERO, ZERO],
    },
    Normal {
        dimension: 3,
        normal: [HALF, HALF, HALF, HALF],
    },
    Normal {
        dimension: 4,
        normal: [HALF, NEG_HALF, HALF, NEG_HALF],
    },
    Normal {
        dimension: 5,
        normal: [HALF, HALF, HALF, HALF],
    },
    Normal {
        dimension: 6,
        normal: [HALF, HALF, HALF, HALF],
    },
];

// Two hyperplanes.
pub const PLANE_PAIRS: [TwoPlanes; 16] = [
    TwoPlanes {
        dimension: 0,
        earlier_distance: ONE,
        later_distance: ONE,
        earlier: [ONE, ZERO, ZERO, ZERO],
        later: [NEG_ONE, TWO, NAN, INF],
    },
    TwoPlanes {
        dimension: 0,
        earlier_distance: ONE,
        later_distance: TWO,
        earlier: [ONE, ZERO, ZERO, ZERO],
        later: [ONE, ZERO, ZERO, ZERO],
    },
    TwoPlanes {
        dimension: 1,
        earlier_distance: ONE,
        later_distance: OVER,
        earlier: [ONE, ZERO, ZERO, ZERO],
        later: [ONE, TWO, ZERO, ZERO],
    },
    TwoPlanes {
        dimension: 1,
        earlier_distance: ONE,
        later_distance: OVER_UP,
        earlier: [ONE, ZERO, ZERO, ZERO],
        later: [ONE, ZERO, ZERO, ZERO],
    },
    TwoPlanes {
        dimension: 2,
        earlier_distance: ONE,
        later_distance: ONE,
        earlier: [ONE, ZERO, ZERO, ZERO],
        later: [ONE, T, ZERO, ZERO],
    },
    TwoPlanes {
        dimension: 2,
        earlier_distance: ONE,
        later_distance: ONE,
        earlier: [ONE, ZERO, ZERO, ZERO],
        later: [ONE, T_UP, ZERO, ZERO],
    },
    TwoPlanes {
        dimension: 2,
        earlier_distance: ZERO,
        later_distance: NEG_ZERO,
        earlier: [ONE, ZERO, ZERO, ZERO],
        later: [ONE, NEG_ZERO, ZERO, ZERO],
    },
    TwoPlanes {
        dimension: 3,
        earlier_distance: PLANE,
        later_distance: PLANE_T,
        earlier: [SIX_TENTHS, EIGHT_TENTHS, ZERO, ONE],
        later: [SIX_TENTHS, EIGHT_TENTHS, NEG_T, NEG_ONE],
    },
    TwoPlanes {
        dimension: 3,
        earlier_distance: PLANE_T_UP,
        later_distance: PLANE,
        earlier: [SIX_TENTHS, EIGHT_TENTHS, ZERO, ZERO],
        later: [SIX_TENTHS, EIGHT_TENTHS, ZERO, ZERO],
    },
    TwoPlanes {
        dimension: 4,
        earlier_distance: INF,
        later_distance: INF,
        earlier: [HALF, HALF, HALF, HALF],
        later: [HALF, HALF, HALF, HALF],
    },
    TwoPlanes {
        dimension: 4,
        earlier_distance: INF,
        later_distance: NEG_INF,
        earlier: [HALF, HALF, HALF, HALF],
        later: [HALF, HALF, HALF, HALF],
    },
    TwoPlanes {
        dimension: 4,
        earlier_distance: NAN,
        later_distance: NAN,
        earlier: [HALF, HALF, HALF, NAN],
        later: [HALF, HALF, HALF, NAN],
    },
    TwoPlanes {
        dimension: 4,
        earlier_distance: NAN,
        later_distance: ONE,
        earlier: [HALF, HALF, HALF, HALF],
        later: [HALF, HALF, HALF, HALF],
    },
    TwoPlanes {
        dimension: 4,
        earlier_distance: ONE,
        later_distance: ONE,
        earlier: [HALF, HALF, HALF, HALF],
        later: [HALF, HALF, HALF, NEG_HALF],
    },
    TwoPlanes {
        dimension: 5,
        earlier_distance: ONE,
        later_distance: ONE,
        earlier: [HALF, HALF, HALF, HALF],
        later: [HALF, HALF, HALF, NEG_HALF],
    },
    TwoPlanes {
        dimension: 6,
        earlier_distance: TINY,
        later_distance: NEG_TINY,
        earlier: [HALF, HALF, HALF, HALF],
        later: [HALF, HALF, HALF, HALF_UP],
    },
];

// The vertices to search.
pub const POINTS: [u64; 40] = [
    ZERO, ZERO, ZERO, ZERO, ONE, ZERO, ZERO, ZERO, ONE, ONE, ZERO, ZERO, T, ZERO, ZERO, ZERO, ONE,
    ONE, ONE, ONE, ONE, ONE, ONE, OVER, NAN, INF, NEG_INF, NEG_ZERO, FAR, NEG_FAR, FAR_UP, TINY,
    ONE, ONE, ONE_UP, NEG_ONE, MAX, NEG_MAX, SUBNORMAL, TWO,
];

// The point to find.
pub const VERTEX_SEARCHES: [PointSearch; 26] = [
    PointSearch {
        dimension: 0,
        count: 0,
        wanted: [ZERO, ZERO, ZERO, ZERO],
    },
    PointSearch {
        dimension: 0,
        count: 10,
        wanted: [NAN, NAN, NAN, NAN],
    },
    PointSearch {
        dimension: 1,
        count: 10,
        wanted: [ONE, TWO, THREE, NAN],
    },
    PointSearch {
        dimension: 1,
        count: 3,
        wanted: [NAN, ZERO, ZERO, ZERO],
    },
    PointSearch {
        dimension: 1,
        count: 10,
        wanted: [NAN, ZERO, ZERO, ZERO],
    },
    PointSearch {
        dimension: 2,
        count: 10,
        wanted: [ONE, ONE, NAN, NAN],
    },
    PointSearch {
        dimension: 3,
        count: 10,
        wanted: [ONE, ONE, ONE, ZERO],
    },
    PointSearch {
        dimension: 4,
        count: 0,
        wanted: [ZERO, ZERO, ZERO, ZERO],
    },
    PointSearch {
        dimension: 4,
        count: 1,
        wanted: [ONE, ZERO, ZERO, ZERO],
    },
    PointSearch {
        dimension: 4,
        count: 2,
        wanted: [ONE, ZERO, ZERO, ZERO],
    },
    PointSearch {
        dimension: 4,
        count: 10,
        wanted: [T, ZERO, ZERO, ZERO],
    },
    PointSearch {
        dimension: 4,
        count: 10,
        wanted: [T_UP, ZERO, ZERO, ZERO],
    },
    PointSearch {
        dimension: 4,
        count: 10,
        wanted: [NEG_T_UP, ZERO, ZERO, ZERO],
    },
    PointSearch {
        dimension: 4,
        count: 10,
        wanted: [NEG_ZERO, NEG_ZERO, TINY, NEG_TINY],
    },
    PointSearch {
        dimension: 4,
        count: 10,
        wanted: [ONE, ONE, ONE, OVER],
    },
    PointSearch {
        dimension: 4,
        count: 10,
        wanted: [ONE, ONE, ONE, OVER_UP],
    },
    PointSearch {
        dimension: 4,
        count: 10,
        wanted: [ONE, ONE, ONE, NEG_ONE],
    },
    PointSearch {
        dimension: 4,
        count: 10,
        wanted: [NAN, INF, NEG_INF, ZERO],
    },
    PointSearch {
        dimension: 4,
        count: 10,
        wanted: [NAN, INF, INF, NEG_ZERO],
    },
    PointSearch {
        dimension: 4,
        count: 10,
        wanted: [FAR, NEG_FAR, FAR, TINY],
    },
    PointSearch {
        dimension: 4,
        count: 10,
        wanted: [FAR, NEG_FAR_T_UP, FAR, TINY],
    },
    PointSearch {
        dimension: 4,
        count: 9,
        wanted: [MAX, NEG_MAX, ZERO, TWO],
    },
    PointSearch {
        dimension: 4,
        count: 10,
        wanted: [MAX, NEG_MAX, ZERO, TWO],
    },
    PointSearch {
        dimension: 4,
        count: 10,
        wanted: [MAX_DOWN, NEG_MAX, ZERO, TWO],
    },
    PointSearch {
        dimension: 5,
        count: 10,
        wanted: [ONE, ONE, ONE, NEG_ONE],
    },
    PointSearch {
        dimension: 6,
        count: 10,
        wanted: [ONE, ONE, ONE, TWO],
    },
];

// The hyperplanes to search: normal and distance.
pub const PLANES: [u64; 40] = [
    NEG_ONE,
    ZERO,
    ZERO,
    ZERO,
    ONE,
    ONE,
    ZERO,
    ZERO,
    ZERO,
    ONE,
    ONE,
    ZERO,
    ZERO,
    ZERO,
    ZERO,
    ONE,
    ZERO,
    ZERO,
    ZERO,
    T,
    SIX_TENTHS,
    EIGHT_TENTHS,
    ZERO,
    ZERO,
    FOURTEEN_TENTHS,
    SIX_TENTHS,
    EIGHT_TENTHS,
    ZERO,
    T_UP,
    FOURTEEN_TENTHS,
    HALF,
    HALF,
    HALF,
    HALF,
    NEG_PLANE,
    NAN,
    NEG_ZERO,
    INF,
    NEG_INF,
    NAN,
];

// The hyperplane to find.
pub const PLANE_SEARCHES: [PlaneSearch; 26] = [
    PlaneSearch {
        dimension: 0,
        first: 0,
        count: 0,
        distance: ONE,
        wanted: [ONE, ZERO, ZERO, ZERO],
    },
    PlaneSearch {
        dimension: 0,
        first: 0,
        count: 8,
        distance: ONE,
        wanted: [NAN, NAN, NAN, NAN],
    },
    PlaneSearch {
        dimension: 0,
        first: 1,
        count: 8,
        distance: ONE,
        wanted: [ONE, ZERO, ZERO, ZERO],
    },
    PlaneSearch {
        dimension: 1,
        first: 0,
        count: 8,
        distance: ONE,
        wanted: [ONE, TWO, TWO, TWO],
    },
    PlaneSearch {
        dimension: 1,
        first: 2,
        count: 8,
        distance: ONE,
        wanted: [ONE, ZERO, ZERO, ZERO],
    },
    PlaneSearch {
        dimension: 1,
        first: 0,
        count: 8,
        distance: T,
        wanted: [ONE, ZERO, ZERO, ZERO],
    },
    PlaneSearch {
        dimension: 1,
        first: 3,
        count: 8,
        distance: T,
        wanted: [ONE, ZERO, ZERO, ZERO],
    },
    PlaneSearch {
        dimension: 1,
        first: 3,
        count: 8,
        distance: ZERO,
        wanted: [ONE, ZERO, ZERO, ZERO],
    },
    PlaneSearch {
        dimension: 1,
        first: 4,
        count: 8,
        distance: ZERO,
        wanted: [ONE, ZERO, ZERO, ZERO],
    },
    PlaneSearch {
        dimension: 1,
        first: 0,
        count: 8,
        distance: T_UP,
        wanted: [ONE, ZERO, ZERO, ZERO],
    },
    PlaneSearch {
        dimension: 1,
        first: 0,
        count: 2,
        distance: ZERO,
        wanted: [ONE, ZERO, ZERO, ZERO],
    },
    PlaneSearch {
        dimension: 1,
        first: 0,
        count: 3,
        distance: NEG_ZERO,
        wanted: [ONE, NEG_ZERO, ZERO, ZERO],
    },
    PlaneSearch {
        dimension: 2,
        first: 0,
        count: 8,
        distance: FOURTEEN_TENTHS,
        wanted: [SIX_TENTHS, EIGHT_TENTHS, TWO, TWO],
    },
    PlaneSearch {
        dimension: 3,
        first: 5,
        count: 8,
        distance: FOURTEEN_TENTHS,
        wanted: [SIX_TENTHS, EIGHT_TENTHS, ZERO, ZERO],
    },
    PlaneSearch {
        dimension: 4,
        first: 4,
        count: 8,
        distance: FOURTEEN_TENTHS,
        wanted: [SIX_TENTHS, EIGHT_TENTHS, ZERO, T],
    },
    PlaneSearch {
        dimension: 4,
        first: 4,
        count: 8,
        distance: FOURTEEN_TENTHS,
        wanted: [SIX_TENTHS, EIGHT_TENTHS, ZERO, T_UP_UP],
    },
    PlaneSearch {
        dimension: 4,
        first: 5,
        count: 8,
        distance: FOURTEEN_TENTHS,
        wanted: [SIX_TENTHS, EIGHT_TENTHS, ZERO, ZERO],
    },
    PlaneSearch {
        dimension: 4,
        first: 0,
        count: 8,
        distance: NEG_PLANE_UP,
        wanted: [HALF, HALF, HALF, HALF],
    },
    PlaneSearch {
        dimension: 4,
        first: 0,
        count: 8,
        distance: NEG_PLANE_T_UP,
        wanted: [HALF, HALF, HALF, HALF],
    },
    PlaneSearch {
        dimension: 4,
        first: 0,
        count: 8,
        distance: NAN,
        wanted: [NAN, ZERO, INF, NEG_INF],
    },
    PlaneSearch {
        dimension: 4,
        first: 0,
        count: 8,
        distance: NAN,
        wanted: [NAN, ZERO, INF, INF],
    },
    PlaneSearch {
        dimension: 4,
        first: 8,
        count: 8,
        distance: NAN,
        wanted: [NAN, ZERO, INF, NEG_INF],
    },
    PlaneSearch {
        dimension: 4,
        first: 9,
        count: 8,
        distance: NAN,
        wanted: [NAN, ZERO, INF, NEG_INF],
    },
    PlaneSearch {
        dimension: 4,
        first: 9,
        count: 0,
        distance: ONE,
        wanted: [ONE, ZERO, ZERO, ZERO],
    },
    PlaneSearch {
        dimension: 5,
        first: 0,
        count: 8,
        distance: NEG_PLANE,
        wanted: [HALF, HALF, HALF, HALF],
    },
    PlaneSearch {
        dimension: 6,
        first: 0,
        count: 8,
        distance: NEG_PLANE,
        wanted: [HALF, HALF, HALF, NEG_HALF],
    },
];

// x, which is no NaN.
pub const NARROWINGS: [u64; 77] = [
    ZERO,
    NEG_ZERO,
    TINY,
    NEG_TINY,
    SUBNORMAL,
    NORMAL,
    NARROW_HALF_DOWN,
    NARROW_HALF,
    NARROW_HALF_UP,
    NEG_NARROW_HALF,
    NARROW_TINY_DOWN,
    NARROW_TINY,
    NARROW_TINY_UP,
    NEG_NARROW_TINY,
    NARROW_TIE_LOW_DOWN,
    NARROW_TIE_LOW,
    NARROW_TIE_LOW_UP,
    NEG_NARROW_TIE_LOW,
    NARROW_TIE_EVEN_DOWN,
    NARROW_TIE_EVEN,
    NARROW_TIE_EVEN_UP,
    NEG_NARROW_TIE_EVEN,
    NARROW_SUBNORMAL_DOWN,
    NARROW_SUBNORMAL,
    NARROW_SUBNORMAL_UP,
    NEG_NARROW_SUBNORMAL,
    NARROW_TIE_NORMAL_DOWN,
    NARROW_TIE_NORMAL,
    NARROW_TIE_NORMAL_UP,
    NEG_NARROW_TIE_NORMAL,
    NARROW_NORMAL_DOWN,
    NARROW_NORMAL,
    NARROW_NORMAL_UP,
    NEG_NARROW_NORMAL,
    NARROW_ONE_TIE_DOWN,
    NARROW_ONE_TIE,
    NARROW_ONE_TIE_UP,
    NEG_NARROW_ONE_TIE,
    NARROW_ODD_TIE_DOWN,
    NARROW_ODD_TIE,
    NARROW_ODD_TIE_UP,
    NEG_NARROW_ODD_TIE,
    NARROW_CARRY_DOWN,
    NARROW_CARRY,
    NARROW_CARRY_UP,
    NEG_NARROW_CARRY,
    NARROW_FAR_TIE_DOWN,
    NARROW_FAR_TIE,
    NARROW_FAR_TIE_UP,
    NEG_NARROW_FAR_TIE,
    NARROW_LARGEST_DOWN,
    NARROW_LARGEST,
    NARROW_LARGEST_UP,
    NEG_NARROW_LARGEST,
    NARROW_OVER_DOWN,
    NARROW_OVER,
    NARROW_OVER_UP,
    NEG_NARROW_OVER,
    NARROW_PAST_DOWN,
    NARROW_PAST,
    NARROW_PAST_UP,
    NEG_NARROW_PAST,
    TENTH,
    NEG_TENTH,
    THIRD,
    T,
    ONE_DOWN,
    ONE,
    ONE_UP,
    FAR_DOWN,
    FAR,
    NEG_FAR,
    BIG,
    MAX,
    NEG_MAX,
    INF,
    NEG_INF,
];

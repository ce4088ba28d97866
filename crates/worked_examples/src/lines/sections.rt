// Lines of cross-sections, one table for each shape.
use crate::lines::Lines;

// The lines above: a conduit that has no section yet.
const BARE: &str = "[CONDUITS]\nC9 J1 J2 100 0.013 0 0\n[XSECTIONS]";

// Link, shape, full height, width, two numbers that aren't used, barrels.
pub(crate) const OPEN_RECTANGLES: Lines = Lines {
    above: BARE,
    rows: "
    good       | C9 RECT_OPEN 1 2 0 0 3
    good       | C9 RECT_OPEN 1 2
    good       | C9 RECT_OPEN 1 2 0 0 100
    203 1      | C9 RECT_OPEN 1
    209 C7     | C7 RECT_OPEN 1 2
    207 C1     | C1 RECT_OPEN 1 2
    401 OVAL   | C9 OVAL 1 2
    211 0.0009 | C9 RECT_OPEN 0.0009 2
    211 -2     | C9 RECT_OPEN 1 -2
    211 x      | C9 RECT_OPEN 1 2 x 0 3
    211 y      | C9 RECT_OPEN 1 2 0 y 3
    211 0      | C9 RECT_OPEN 1 2 0 0 0
    211 101    | C9 RECT_OPEN 1 2 0 0 101
    211 1.0    | C9 RECT_OPEN 1 2 0 0 1.0
    ",
    below: "",
};

pub(crate) const CLOSED_RECTANGLES: Lines = Lines {
    above: BARE,
    rows: "
    good     | C9 RECT_CLOSED 1 2 0 0 3
    good     | C9 rect_closed 1 2
    203 1    | C9 RECT_CLOSED 1
    209 J1   | J1 RECT_CLOSED 1 2
    207 C2   | C2 RECT_CLOSED 1 2
    211 high | C9 RECT_CLOSED high 2
    211 wide | C9 RECT_CLOSED 1 wide
    211 x    | C9 RECT_CLOSED 1 2 x 0 3
    211 y    | C9 RECT_CLOSED 1 2 0 y 3
    211 z    | C9 RECT_CLOSED 1 2 0 0 z
    ",
    below: "",
};

// Link, TRIANGULAR, full height, top width, two numbers that aren't used, barrels.
pub(crate) const TRIANGLES: Lines = Lines {
    above: BARE,
    rows: "
    good      | C9 TRIANGULAR 1 2 0 0 3
    good      | C9 TRIANGULAR 1 2
    203 1     | C9 TRIANGULAR 1
    209 C7    | C7 TRIANGULAR 1 2
    207 WE1   | WE1 TRIANGULAR 1 2
    211 -1    | C9 TRIANGULAR -1 2
    211 10001 | C9 TRIANGULAR 1 10001
    211 x     | C9 TRIANGULAR 1 2 x 0 3
    211 y     | C9 TRIANGULAR 1 2 0 y 3
    211 -3    | C9 TRIANGULAR 1 2 0 0 -3
    ",
    below: "",
};

// Link, TRAPEZOIDAL, full height, bottom width, both side slopes, barrels.
pub(crate) const TRAPEZOIDS: Lines = Lines {
    above: BARE,
    rows: "
    good     | C9 TRAPEZOIDAL 1 2 1.5 0.5 3
    good     | C9 TRAPEZOIDAL 1 2
    203 1    | C9 TRAPEZOIDAL 1
    209 C7   | C7 TRAPEZOIDAL 1 2 1.5 0.5
    207 C1   | C1 TRAPEZOIDAL 1 2 1.5 0.5
    211 0    | C9 TRAPEZOIDAL 0 2 1.5 0.5
    211 -2   | C9 TRAPEZOIDAL 1 -2 1.5 0.5
    211 -1.5 | C9 TRAPEZOIDAL 1 2 -1.5 0.5
    211 101  | C9 TRAPEZOIDAL 1 2 1.5 101
    211 two  | C9 TRAPEZOIDAL 1 2 1.5 0.5 two
    ",
    below: "",
};

// Link, CIRCULAR, full height, three numbers that aren't used, barrels.
pub(crate) const CIRCLES: Lines = Lines {
    above: BARE,
    rows: "
    good    | C9 CIRCULAR 1 0 0 0 3
    good    | C9 CIRCULAR 1 0
    203 1   | C9 CIRCULAR 1
    209 C7  | C7 CIRCULAR 1 0 0 0 3
    207 OR1 | OR1 CIRCULAR 1 0 0 0 3
    211 1m  | C9 CIRCULAR 1m 0 0 0 3
    211 x   | C9 CIRCULAR 1 x 0 0 3
    211 y   | C9 CIRCULAR 1 0 y 0 3
    211 z   | C9 CIRCULAR 1 0 0 z 3
    211 1e2 | C9 CIRCULAR 1 0 0 0 1e2
    ",
    below: "",
};

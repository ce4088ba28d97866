// Lines of conduits, pumps, orifices and weirs.
use crate::lines::Lines;

// Name, first node, second node, length, roughness, offsets of both ends, initial flow, greatest flow.
pub(crate) const CONDUITS: Lines = Lines {
    above: "[CONDUITS]",
    rows: "
    good      | C9 J1 J2 100 0.013 0 0 0 0
    good      | C9 J1 J2 100 0.013 0 0
    209 J7    | C9 J7 J2 100 0.013 0 0 0 0
    209 C1    | C9 J1 C1 100 0.013 0 0 0 0
    211 0.009 | C9 J1 J2 0.009 0.013 0 0 0 0
    211 0     | C9 J1 J2 100 0 0 0 0 0
    211 1.1   | C9 J1 J2 100 1.1 0 0 0 0
    211 -1    | C9 J1 J2 100 0.013 -1 0 0 0
    211 *     | C9 J1 J2 100 0.013 0 * 0 0
    211 x     | C9 J1 J2 100 0.013 0 0 x 0
    211 -5    | C9 J1 J2 100 0.013 0 0 0 -5
    ",
    below: "[XSECTIONS]\nC9 CIRCULAR 1 0",
};

// The first items of them.
pub(crate) const CONDUIT_NAMES: Lines = Lines {
    above: "[CONDUITS]",
    rows: "
    203 0  | C9 J1 J2 100 0.013 0
    203 C9 | C9
    207 C1 | C1 J1 J2 100 0.013 0 0 0 0
    207 WE1 | WE1 J1 J2 100 0.013 0 0 0 0
    ",
    below: "",
};

// Name, first node, second node, curve, status, depths at which it starts and stops.
pub(crate) const PUMPS: Lines = Lines {
    above: "[PUMPS]",
    rows: "
    good     | P9 J1 J2 LIFT ON 1 0.5
    good     | P9 J1 J2 LIFT
    good     | P9 J1 J2 LIFT off
    203 J2   | P9 J1 J2
    207 P1   | P1 J1 J2 LIFT ON 1 0.5
    209 J7   | P9 J7 J2 LIFT ON 1 0.5
    209 J8   | P9 J1 J8 LIFT ON 1 0.5
    401 *    | P9 J1 J2 * ON 1 0.5
    209 AREA | P9 J1 J2 AREA ON 1 0.5
    209 DROP | P9 J1 J2 DROP ON 1 0.5
    205 YES  | P9 J1 J2 LIFT YES 1 0.5
    211 -1   | P9 J1 J2 LIFT ON -1 0.5
    211 x    | P9 J1 J2 LIFT ON 1 x
    ",
    below: "",
};

// Name, first node, second node, side or bottom, offset, discharge coefficient, flap gate, rate.
pub(crate) const ORIFICES: Lines = Lines {
    above: "[ORIFICES]",
    rows: "
    good    | OR9 J1 J2 SIDE 0.5 0.65 YES 0
    good    | OR9 J1 J2 BOTTOM 0 0.65
    209 J7  | OR9 J7 J2 SIDE 0.5 0.65 YES 0
    209 J8  | OR9 J1 J8 SIDE 0.5 0.65 YES 0
    205 TOP | OR9 J1 J2 TOP 0.5 0.65 YES 0
    211 -1  | OR9 J1 J2 SIDE -1 0.65 YES 0
    211 101 | OR9 J1 J2 SIDE 0.5 101 YES 0
    205 ON  | OR9 J1 J2 SIDE 0.5 0.65 ON 0
    401 2   | OR9 J1 J2 SIDE 0.5 0.65 YES 2
    401 x   | OR9 J1 J2 SIDE 0.5 0.65 YES x
    ",
    below: "[XSECTIONS]\nOR9 RECT_CLOSED 0.3 0.5",
};

// The first items of them.
pub(crate) const ORIFICE_NAMES: Lines = Lines {
    above: "[ORIFICES]",
    rows: "
    203 0.5 | OR9 J1 J2 SIDE 0.5
    207 OR1 | OR1 J1 J2 SIDE 0.5 0.65
    207 C1  | C1 J1 J2 SIDE 0.5 0.65
    ",
    below: "",
};

// Name, first node, second node, kind, offset of the crest, discharge coefficient, flap gate, end contractions.
pub(crate) const WEIRS: Lines = Lines {
    above: "[WEIRS]",
    rows: "
    good         | WE9 J1 J2 TRANSVERSE 1 1.8 YES 2
    good         | WE9 J1 J2 TRANSVERSE 0 1.8
    209 J7       | WE9 J7 J2 TRANSVERSE 1 1.8 YES 2
    209 J8       | WE9 J1 J8 TRANSVERSE 1 1.8 YES 2
    401 SIDEFLOW | WE9 J1 J2 SIDEFLOW 1 1.8 YES 2
    211 -1       | WE9 J1 J2 TRANSVERSE -1 1.8 YES 2
    211 -1.8     | WE9 J1 J2 TRANSVERSE 1 -1.8 YES 2
    205 OPEN     | WE9 J1 J2 TRANSVERSE 1 1.8 OPEN 2
    211 3        | WE9 J1 J2 TRANSVERSE 1 1.8 YES 3
    211 1.0      | WE9 J1 J2 TRANSVERSE 1 1.8 YES 1.0
    ",
    below: "[XSECTIONS]\nWE9 RECT_OPEN 1 2",
};

// The same for a notch, and the first items of both.
pub(crate) const NOTCHES: Lines = Lines {
    above: "[WEIRS]",
    rows: "
    good | WE9 J1 J2 V-NOTCH 1 1.4 NO 0
    good | WE9 J1 J2 v-notch 1 1.4
    ",
    below: "[XSECTIONS]\nWE9 TRIANGULAR 1 2",
};

pub(crate) const WEIR_NAMES: Lines = Lines {
    above: "[WEIRS]",
    rows: "
    203 1  | WE9 J1 J2 TRANSVERSE 1
    203 1  | WE9 J1 J2 V-NOTCH 1
    207 WE1 | WE1 J1 J2 TRANSVERSE 1 1.8
    207 P1 | P1 J1 J2 V-NOTCH 1 1.4
    ",
    below: "",
};

// Conduit, coefficients of entry, exit and length, flap gate.
pub(crate) const LOSSES: Lines = Lines {
    above: "[LOSSES]",
    rows: "
    good     | C2 0.5 1 0.1 YES
    good     | C2 0.5 1 0.1
    203 1    | C2 0.5 1
    209 C7   | C7 0.5 1 0.1 YES
    209 P1   | P1 0.5 1 0.1 YES
    207 C1   | C1 0.5 1 0.1 YES
    211 -0.5 | C2 -0.5 1 0.1 YES
    211 101  | C2 0.5 101 0.1 YES
    211 x    | C2 0.5 1 x YES
    205 GATE | C2 0.5 1 0.1 GATE
    ",
    below: "",
};

// Lines of junctions, outfalls and storages.
use crate::lines::Lines;

// Name, invert elevation, greatest depth, initial depth, surcharge depth, ponded area.
pub(crate) const JUNCTIONS: Lines = Lines {
    above: "[JUNCTIONS]",
    rows: "
    good      | J9 10 3 1 0.5 20
    good      | J9 10
    good      | J9 10 3 1 0.5 20 these aren't read
    203 J9    | J9
    207 O1    | O1 10 3 1 0.5 20
    211 low   | J9 low 3 1 0.5 20
    211 10001 | J9 10001 3 1 0.5 20
    211 -3    | J9 10 -3 1 0.5 20
    211 deep  | J9 10 3 deep 0.5 20
    211 1,5   | J9 10 3 1 1,5 20
    211 -20   | J9 10 3 1 0.5 -20
    ",
    below: "",
};

// Name, invert elevation, stage, gate.
pub(crate) const FREE_OUTFALLS: Lines = Lines {
    above: "[OUTFALLS]",
    rows: "
    good     | O9 8 FREE
    good     | O9 8 FREE YES
    203 O9   | O9
    203 8    | O9 8
    207 J1   | J1 8 FREE
    211 x    | O9 x FREE
    205 OPEN | O9 8 OPEN
    205 GATE | O9 8 FREE GATE
    401 A1   | O9 8 FREE NO A1
    ",
    below: "",
};

pub(crate) const NORMAL_OUTFALLS: Lines = Lines {
    above: "[OUTFALLS]",
    rows: "
    good     | O9 8 NORMAL
    good     | O9 8 normal no
    207 S1   | S1 8 NORMAL NO
    211 1e10 | O9 1e10 NORMAL NO
    205 OFF  | O9 8 NORMAL OFF
    401 9    | O9 8 NORMAL NO 9
    ",
    below: "",
};

// Name, invert elevation, FIXED, stage, gate.
pub(crate) const FIXED_OUTFALLS: Lines = Lines {
    above: "[OUTFALLS]",
    rows: "
    good      | O9 8 FIXED 9.5
    good      | O9 8 FIXED -9.5 YES
    203 FIXED | O9 8 FIXED
    207 O1    | O1 8 FIXED 9.5
    211 8..0  | O9 8..0 FIXED 9.5
    211 high  | O9 8 FIXED high
    205 2     | O9 8 FIXED 9.5 2
    401 A1    | O9 8 FIXED 9.5 NO A1
    ",
    below: "",
};

// Name, invert elevation, TIDAL, curve, gate.
pub(crate) const TIDAL_OUTFALLS: Lines = Lines {
    above: "[OUTFALLS]",
    rows: "
    good      | O9 8 TIDAL SEA
    good      | O9 8 TIDAL SEA YES
    203 TIDAL | O9 8 TIDAL
    207 O1    | O1 8 TIDAL SEA
    211 x     | O9 x TIDAL SEA
    209 RIVER | O9 8 TIDAL RIVER
    209 AREA  | O9 8 TIDAL AREA
    205 SEA   | O9 8 TIDAL SEA SEA
    401 A1    | O9 8 TIDAL SEA NO A1
    ",
    below: "",
};

// Name, invert elevation, TIMESERIES, series, gate.
pub(crate) const SERIES_OUTFALLS: Lines = Lines {
    above: "[OUTFALLS]",
    rows: "
    good           | O9 8 TIMESERIES RAIN
    good           | O9 8 TIMESERIES RAIN NO
    203 TIMESERIES | O9 8 TIMESERIES
    207 O1         | O1 8 TIMESERIES RAIN
    211 x          | O9 x TIMESERIES RAIN
    209 SEA        | O9 8 TIMESERIES SEA
    205 *          | O9 8 TIMESERIES RAIN *
    401 A1         | O9 8 TIMESERIES RAIN NO A1
    ",
    below: "",
};

// Name, invert elevation, greatest depth, initial depth, TABULAR, curve, two numbers that aren't used.
pub(crate) const TABULAR_STORAGES: Lines = Lines {
    above: "[STORAGE]",
    rows: "
    good        | S9 9 3 0 TABULAR AREA
    good        | S9 9 3 0 TABULAR AREA 0 0
    203 TABULAR | S9 9 3 0 TABULAR
    207 S1      | S1 9 3 0 TABULAR AREA
    211 x       | S9 x 3 0 TABULAR AREA
    211 -3      | S9 9 -3 0 TABULAR AREA
    211 -1      | S9 9 3 -1 TABULAR AREA
    205 CONE    | S9 9 3 0 CONE AREA
    209 LIFT    | S9 9 3 0 TABULAR LIFT
    209 FIELD   | S9 9 3 0 TABULAR FIELD
    211 A       | S9 9 3 0 TABULAR AREA A 0
    211 E       | S9 9 3 0 TABULAR AREA 0 E
    401 0.1     | S9 9 3 0 TABULAR AREA 0 0 0.1
    ",
    below: "",
};

// Name, invert elevation, greatest depth, initial depth, FUNCTIONAL, coefficient, power, constant, two numbers that
// aren't used.
pub(crate) const FUNCTIONAL_STORAGES: Lines = Lines {
    above: "[STORAGE]",
    rows: "
    good        | S9 9 3 0 FUNCTIONAL 10 0.5 20
    good        | S9 9 3 0 FUNCTIONAL 10 3 0 0 0
    203 0.5     | S9 9 3 0 FUNCTIONAL 10 0.5
    203 TABULAR | S9 9 3 0 TABULAR
    207 J1      | J1 9 3 0 FUNCTIONAL 10 0.5 20
    211 x       | S9 x 3 0 FUNCTIONAL 10 0.5 20
    211 -3      | S9 9 -3 0 FUNCTIONAL 10 0.5 20
    211 y       | S9 9 3 y FUNCTIONAL 10 0.5 20
    211 -10     | S9 9 3 0 FUNCTIONAL -10 0.5 20
    401 0.3     | S9 9 3 0 FUNCTIONAL 10 0.3 20
    401 3.5     | S9 9 3 0 FUNCTIONAL 10 3.5 20
    211 -20     | S9 9 3 0 FUNCTIONAL 10 0.5 -20
    211 A       | S9 9 3 0 FUNCTIONAL 10 0.5 20 A 0
    211 E       | S9 9 3 0 FUNCTIONAL 10 0.5 20 0 E
    401 0.1     | S9 9 3 0 FUNCTIONAL 10 0.5 20 0 0 0.1
    ",
    below: "",
};

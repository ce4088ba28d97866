// Lines of rain gages, subcatchments and what they have.
use crate::lines::Lines;

// Name, form, interval, a number that isn't used, TIMESERIES, series.
pub(crate) const GAGES: Lines = Lines {
    above: "[RAINGAGES]",
    rows: "
    good           | G9 INTENSITY 0:15 1.0 TIMESERIES RAIN
    good           | G9 VOLUME 24 1.0 timeseries RAIN
    good           | G9 volume 0:01 1.0 TIMESERIES RAIN
    203 TIMESERIES | G9 INTENSITY 0:15 1.0 TIMESERIES
    207 G1         | G1 INTENSITY 0:15 1.0 TIMESERIES RAIN
    401 CUMULATIVE | G9 CUMULATIVE 0:15 1.0 TIMESERIES RAIN
    205 DEPTH      | G9 DEPTH 0:15 1.0 TIMESERIES RAIN
    213 0:00       | G9 INTENSITY 0:00 1.0 TIMESERIES RAIN
    213 24.1       | G9 INTENSITY 24.1 1.0 TIMESERIES RAIN
    213 15m        | G9 INTENSITY 15m 1.0 TIMESERIES RAIN
    211 all        | G9 INTENSITY 0:15 all TIMESERIES RAIN
    401 FILE       | G9 INTENSITY 0:15 1.0 FILE RAIN
    205 SERIES     | G9 INTENSITY 0:15 1.0 SERIES RAIN
    209 SNOW       | G9 INTENSITY 0:15 1.0 TIMESERIES SNOW
    ",
    below: "",
};

// Name, gage, outlet, area, percent impervious, width, percent slope, a number that isn't used.
pub(crate) const SUBCATCHMENTS: Lines = Lines {
    above: "[SUBCATCHMENTS]",
    rows: "
    good      | A9 G1 J1 5 50 500 0.5 0
    good      | A9 G1 O1 0.0001 100 0 0 0
    209 G7    | A9 G7 J1 5 50 500 0.5 0
    209 J7    | A9 G1 J7 5 50 500 0.5 0
    401 A1    | A9 G1 A1 5 50 500 0.5 0
    211 0     | A9 G1 J1 0 50 500 0.5 0
    211 100.1 | A9 G1 J1 5 100.1 500 0.5 0
    211 -500  | A9 G1 J1 5 50 -500 0.5 0
    211 steep | A9 G1 J1 5 50 500 steep 0
    211 curb  | A9 G1 J1 5 50 500 0.5 curb
    401 PACK  | A9 G1 J1 5 50 500 0.5 0 PACK
    ",
    below: "[SUBAREAS]\nA9 0.01 0.1 1 2 25\n[INFILTRATION]\nA9 3 0.5 4 7 0",
};

// The first items of them.
pub(crate) const SUBCATCHMENT_NAMES: Lines = Lines {
    above: "[SUBCATCHMENTS]",
    rows: "
    203 0.5 | A9 G1 J1 5 50 500 0.5
    203 A9  | A9
    207 A1  | A1 G1 J1 5 50 500 0.5 0
    ",
    below: "",
};

// The lines above: a subcatchment that has all but subareas.
const WITHOUT_AREAS: &str = "[SUBCATCHMENTS]\nA9 G1 J1 5 50 500 0.5 0\n\
    [INFILTRATION]\nA9 3 0.5 4 7 0\n[SUBAREAS]";

// Subcatchment, roughness and storage of both parts, percent without storage, OUTLET, a percentage that isn't used.
pub(crate) const SUBAREAS: Lines = Lines {
    above: WITHOUT_AREAS,
    rows: "
    good         | A9 0.01 0.1 1 2 25 OUTLET 50
    good         | A9 0.01 0.1 1 2 25
    203 2        | A9 0.01 0.1 1 2
    209 A7       | A7 0.01 0.1 1 2 25 OUTLET
    207 A1       | A1 0.01 0.1 1 2 25 OUTLET
    211 0.0004   | A9 0.0004 0.1 1 2 25 OUTLET
    211 1.1      | A9 0.01 1.1 1 2 25 OUTLET
    211 -1       | A9 0.01 0.1 -1 2 25 OUTLET
    211 -2       | A9 0.01 0.1 1 -2 25 OUTLET
    211 101      | A9 0.01 0.1 1 2 101 OUTLET
    401 PERVIOUS | A9 0.01 0.1 1 2 25 PERVIOUS
    205 STREET   | A9 0.01 0.1 1 2 25 STREET
    211 all      | A9 0.01 0.1 1 2 25 OUTLET all
    ",
    below: "",
};

// The lines above: a subcatchment that has all but infiltration.
const WITHOUT_SOIL: &str = "[SUBCATCHMENTS]\nA9 G1 J1 5 50 500 0.5 0\n\
    [SUBAREAS]\nA9 0.01 0.1 1 2 25\n[INFILTRATION]";

// Subcatchment, greatest and least rate, decay, drying time, greatest volume.
pub(crate) const HORTON: Lines = Lines {
    above: WITHOUT_SOIL,
    rows: "
    good       | A9 3 0.5 4 7 20
    good       | A9 3 3 0 0.001 0
    203 7      | A9 3 0.5 4 7
    209 A7     | A7 3 0.5 4 7 20
    207 A1     | A1 3 0.5 4 7 20
    211 -3     | A9 -3 0.5 4 7 20
    211 low    | A9 3 low 4 7 20
    211 -4     | A9 3 0.5 -4 7 20
    211 0.0004 | A9 3 0.5 4 0.0004 20
    211 -20    | A9 3 0.5 4 7 -20
    ",
    below: "",
};

// The lines above: the same in a file of curve numbers.
const WITHOUT_NUMBER: &str = "[OPTIONS]\nINFILTRATION CURVE_NUMBER\n\
    [SUBCATCHMENTS]\nA9 G1 J1 5 50 500 0.5 0\n[SUBAREAS]\nA9 0.01 0.1 1 2 25\n[INFILTRATION]";

// Subcatchment, curve number, a number that isn't used, drying time.
pub(crate) const CURVE_NUMBERS: Lines = Lines {
    above: WITHOUT_NUMBER,
    rows: "
    good      | A9 75 0.5 7
    good      | A9 100 0.5 0.001 not read
    203 0.5   | A9 75 0.5
    209 A7    | A7 75 0.5 7
    207 A1    | A1 75 0.5 7
    211 0.9   | A9 0.9 0.5 7
    211 100.1 | A9 100.1 0.5 7
    211 fast  | A9 75 fast 7
    211 0     | A9 75 0.5 0
    ",
    below: "",
};

// CONSTANT and 0, or DRY_ONLY and any text.
pub(crate) const EVAPORATION: Lines = Lines {
    above: "[EVAPORATION]",
    rows: "
    good         | CONSTANT 0.0
    good         | DRY_ONLY YES
    203 CONSTANT | CONSTANT
    401 0.1      | CONSTANT 0.1
    401 MONTHLY  | MONTHLY 0 0 0
    ",
    below: "",
};

// Lines of curves, time series, patterns and inflows.
use crate::lines::Lines;

// Name, type, pairs of numbers.
pub(crate) const CURVES: Lines = Lines {
    above: "[CURVES]",
    rows: "
    good       | K9 STORAGE 0 50 3 80
    good       | K9 pump1 0 0.1
    good       | K9 PUMP2 0 0.1 2 0.2
    good       | K9 PUMP3 0 0.1 2 0.2
    good       | K9 PUMP4 0 0.1 2 0.2
    good       | K9 TIDAL 0 8 12 9
    203 K9     | K9
    203 PUMP1  | K9 PUMP1
    203 0      | K9 STORAGE 0
    203 3      | K9 STORAGE 0 50 3
    401 RATING | K9 RATING 0 50 3 80
    211 x      | K9 STORAGE x 50 3 80
    211 y      | K9 STORAGE 0 y 3 80
    211 z      | K9 STORAGE 0 50 3 z
    171 0      | K9 STORAGE 0 50 0 80
    171 -1     | K9 STORAGE 0 50 -1 80
    ",
    below: "",
};

// A later line of the same curve: name, pairs of numbers.
pub(crate) const CURVES_THAT_GO_ON: Lines = Lines {
    above: "[CURVES]\nK9 STORAGE 0 50 3 80",
    rows: "
    good       | K9 4 90 5 95
    good       | K9 3.000001 90
    203 4      | K9 4
    203 5      | K9 4 90 5
    211 four   | K9 four 90 5 95
    211 ninety | K9 4 ninety 5 95
    171 3      | K9 3 90 5 95
    171 3.5    | K9 4 90 3.5 95
    ",
    below: "",
};

// Name, date, pairs of hours and a number.
pub(crate) const TIME_SERIES: Lines = Lines {
    above: "[TIMESERIES]",
    rows: "
    good           | TS9 01/01/2024 0:00 5 0:15 10
    good           | TS9 0 5 0.25 10
    good           | TS9 0:00 -5
    203 TS9        | TS9
    203 0:00       | TS9 0:00
    203 01/01/2024 | TS9 01/01/2024
    203 0:15       | TS9 01/01/2024 0:00 5 0:15
    401 FILE       | TS9 FILE rain.dat
    213 13/01/2024 | TS9 13/01/2024 0:00 5 0:15
    213 noon       | TS9 noon 5 0:15 10
    213 0:60       | TS9 01/01/2024 0:60 5 1:15 10
    213 -1         | TS9 -1 5 1 10
    211 much       | TS9 0:00 much 0:15 10
    211 more       | TS9 0:00 5 0:15 more
    173 0:15       | TS9 0:15 5 0:15 10
    173 0:14       | TS9 01/01/2024 0:15 5 0:14 10
    ",
    below: "",
};

// A later line of the same series: name, date, pairs of hours and a number.
pub(crate) const SERIES_THAT_GO_ON: Lines = Lines {
    above: "[TIMESERIES]\nTS9 01/02/2024 0:00 5 0:15 10",
    rows: "
    good      | TS9 0:30 5
    good      | TS9 01/03/2024 0:00 5
    203 0:30  | TS9 0:30
    203 0:45  | TS9 0:30 5 0:45
    213 half  | TS9 half 5
    211 five  | TS9 0:30 five
    173 0:15  | TS9 0:15 5
    173 23:00 | TS9 01/01/2024 23:00 5
    ",
    below: "",
};

// Name, type, factors.
pub(crate) const PATTERNS: Lines = Lines {
    above: "[PATTERNS]",
    rows: "
    good       | F9 DAILY 1 1 1 1 1 1 1
    good       | F9 MONTHLY 1 1 1 1 1 1 1 1 1 1 1 1
    good       | F9 HOURLY 0.5
    good       | F9 weekend 0.5
    good       | F9 DAILY
    203 F9     | F9
    205 YEARLY | F9 YEARLY 1
    211 x      | F9 DAILY 1 x 1
    211 -1     | F9 DAILY 1 1 -1
    211 101    | F9 DAILY 101
    402 8      | F9 DAILY 1 2 3 4 5 6 7 8
    402 13     | F9 MONTHLY 1 2 3 4 5 6 7 8 9 10 11 12 13
    ",
    below: "",
};

// A later line of the same pattern: name, factors.
pub(crate) const PATTERNS_THAT_GO_ON: Lines = Lines {
    above: "[PATTERNS]\nF9 DAILY 1 2 3 4 5",
    rows: "
    good    | F9 6 7
    203 F9  | F9
    211 six | F9 six 7
    211 -7  | F9 6 -7
    402 8   | F9 6 7 8
    ",
    below: "",
};

// Node, FLOW, series, FLOW, 1.0, scale, baseline, pattern of the baseline.
pub(crate) const INFLOWS: Lines = Lines {
    above: "[INFLOWS]",
    rows: r#"
    good     | J2 FLOW RAIN FLOW 1.0 2 0.1 DAY
    good     | J2 FLOW ""
    good     | J2 flow "" flow 1 -2 -0.1
    203 FLOW | J2 FLOW
    209 J9   | J9 FLOW RAIN FLOW 1.0 2 0.1 DAY
    401 TSS  | J2 TSS RAIN FLOW 1.0 2 0.1 DAY
    209 SNOW | J2 FLOW SNOW FLOW 1.0 2 0.1 DAY
    205 MASS | J2 FLOW RAIN MASS 1.0 2 0.1 DAY
    401 1.5  | J2 FLOW RAIN FLOW 1.5 2 0.1 DAY
    401 one  | J2 FLOW RAIN FLOW one 2 0.1 DAY
    211 two  | J2 FLOW RAIN FLOW 1.0 two 0.1 DAY
    211 x    | J2 FLOW RAIN FLOW 1.0 2 x DAY
    209 SEA  | J2 FLOW RAIN FLOW 1.0 2 0.1 SEA
    "#,
    below: "",
};

// Node, FLOW, base flow, up to four patterns.
pub(crate) const DRY_INFLOWS: Lines = Lines {
    above: "[DWF]",
    rows: r#"
    good     | J2 FLOW 0.1 DAY WEEK DAY WEEK
    good     | J2 FLOW 0.1
    good     | J2 FLOW -0.1 "" DAY
    203 FLOW | J2 FLOW
    209 J9   | J9 FLOW 0.1 DAY
    401 BOD  | J2 BOD 0.1 DAY
    211 base | J2 FLOW base DAY
    209 A    | J2 FLOW 0.1 A WEEK DAY WEEK
    209 B    | J2 FLOW 0.1 DAY B DAY WEEK
    209 C    | J2 FLOW 0.1 DAY WEEK C WEEK
    209 D    | J2 FLOW 0.1 DAY WEEK DAY D
    "#,
    below: "",
};

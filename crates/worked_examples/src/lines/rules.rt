// Lines of control rules.
use crate::lines::Lines;

pub(crate) const NAMES: Lines = Lines {
    above: "[CONTROLS]",
    rows: "
    good     | RULE NEW
    203 RULE | RULE
    207 FILL | RULE FILL
    ",
    below: "IF NODE S1 DEPTH > 2\nTHEN PUMP P1 STATUS = OFF",
};

// A rule that comes to no action.
pub(crate) const BARE_NAMES: Lines = Lines {
    above: "[CONTROLS]",
    rows: "
    good     | ; no rule
    217 RULE | RULE NEW
    203 RULE | RULE
    205 IFF  | IFF NODE S1 DEPTH > 2
    ",
    below: "",
};

// IF, the kind of an object, its name, what is tested, a relation, a value.
pub(crate) const TESTS: Lines = Lines {
    above: "[CONTROLS]\nRULE NEW",
    rows: "
    good       | IF NODE S1 DEPTH > 2
    good       | if node S1 head >= 11
    good       | IF NODE J1 INFLOW <> 0.1
    good       | IF LINK C1 FLOW < 0.1
    good       | IF CONDUIT C1 STATUS = OPEN
    good       | IF PUMP P1 STATUS = OFF
    good       | IF ORIFICE OR1 SETTING <= 0.5
    good       | IF WEIR WE1 FLOW = 0
    203 >      | IF NODE S1 DEPTH >
    205 GAGE   | IF GAGE G1 DEPTH > 2
    209 S7     | IF NODE S7 DEPTH > 2
    209 C1     | IF PUMP C1 FLOW > 2
    209 P1     | IF WEIR P1 FLOW > 2
    401 VOLUME | IF NODE S1 VOLUME > 2
    401 DEPTH  | IF LINK C1 DEPTH > 2
    205 ==     | IF NODE S1 DEPTH == 2
    211 high   | IF NODE S1 DEPTH > high
    211 -2     | IF NODE S1 DEPTH > -2
    205 SHUT   | IF PUMP P1 STATUS = SHUT
    211 101    | IF ORIFICE OR1 SETTING = 101
    ",
    below: "AND NODE S1 DEPTH > 1\nTHEN PUMP P1 STATUS = ON",
};

// The same of the simulation: SIMULATION, what is tested, a relation, a value.
pub(crate) const MOMENTS: Lines = Lines {
    above: "[CONTROLS]\nRULE NEW\nIF NODE S1 DEPTH > 2",
    rows: "
    good         | AND SIMULATION TIME > 0:30
    good         | OR SIMULATION TIME > 0.5
    good         | AND SIMULATION CLOCKTIME >= 23:59:59
    good         | AND SIMULATION MONTH = 12
    good         | AND SIMULATION DAY <> 7
    203 =        | AND SIMULATION MONTH =
    401 YEAR     | AND SIMULATION YEAR = 2024
    205 =>       | AND SIMULATION TIME => 0:30
    213 noon     | AND SIMULATION TIME > noon
    213 24:00    | AND SIMULATION CLOCKTIME > 24:00
    211 13       | AND SIMULATION MONTH = 13
    211 0        | AND SIMULATION DAY = 0
    211 8        | AND SIMULATION DAY = 8
    217 IF       | IF SIMULATION DAY = 7
    217 ELSE     | ELSE PUMP P1 STATUS = ON
    217 PRIORITY | PRIORITY 1
    ",
    below: "THEN PUMP P1 STATUS = ON",
};

// THEN, the kind of an object, its name, what is set, =, a value.
pub(crate) const ACTIONS: Lines = Lines {
    above: "[CONTROLS]\nRULE NEW\nIF NODE S1 DEPTH > 2",
    rows: "
    good        | THEN PUMP P1 STATUS = ON
    good        | THEN CONDUIT C1 STATUS = CLOSED
    good        | then pump P1 setting = 0.5
    good        | THEN ORIFICE OR1 SETTING = 0
    good        | THEN WEIR WE1 SETTING = 1
    203 =       | THEN PUMP P1 STATUS =
    401 NODE    | THEN NODE S1 STATUS = ON
    209 P7      | THEN PUMP P7 STATUS = ON
    209 C1      | THEN PUMP C1 STATUS = ON
    209 OR1     | THEN WEIR OR1 SETTING = 1
    401 FLOW    | THEN PUMP P1 FLOW = 1
    401 SETTING | THEN CONDUIT C1 SETTING = 1
    205 :=      | THEN PUMP P1 STATUS := ON
    205 OPEN    | THEN PUMP P1 STATUS = OPEN
    205 ON      | THEN CONDUIT C1 STATUS = ON
    211 1.1     | THEN ORIFICE OR1 SETTING = 1.1
    211 half    | THEN ORIFICE OR1 SETTING = half
    ",
    below: "",
};

// What may follow the first action.
pub(crate) const ENDS: Lines = Lines {
    above: "[CONTROLS]\nRULE NEW\nIF NODE S1 DEPTH > 2\nTHEN PUMP P1 STATUS = ON",
    rows: "
    good          | AND WEIR WE1 SETTING = 1
    good          | ELSE PUMP P1 STATUS = OFF
    good          | PRIORITY -2.5
    209 WE7       | AND WEIR WE7 SETTING = 1
    203 =         | ELSE PUMP P1 STATUS =
    211 2         | ELSE PUMP P1 SETTING = 2
    203 PRIORITY  | PRIORITY
    211 first     | PRIORITY first
    217 IF        | IF NODE S1 DEPTH > 2
    217 OR        | OR NODE S1 DEPTH > 2
    217 THEN      | THEN PUMP P1 STATUS = ON
    205 THEREFORE | THEREFORE PUMP P1 STATUS = ON
    ",
    below: "",
};

// A rule has one priority, and nothing follows it.
pub(crate) const PRIORITIES: Lines = Lines {
    above: "[CONTROLS]\nRULE NEW\nIF NODE S1 DEPTH > 2\nTHEN PUMP P1 STATUS = ON\nPRIORITY 1",
    rows: "
    good         | ; no more of this rule
    217 PRIORITY | PRIORITY 2
    217 AND      | AND PUMP P1 STATUS = ON
    217 ELSE     | ELSE PUMP P1 STATUS = OFF
    ",
    below: "",
};

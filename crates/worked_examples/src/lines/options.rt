// Lines of options.
use crate::lines::Lines;

pub(crate) const WORDS: Lines = Lines {
    above: "[OPTIONS]",
    rows: "
    good           | FLOW_UNITS CMS
    good           | flow_units cfs and no more
    203 FLOW_UNITS | FLOW_UNITS
    205 FLOW_UNIT  | FLOW_UNIT CMS
    205 CMH        | FLOW_UNITS CMH
    good           | INFILTRATION MODIFIED_HORTON
    good           | INFILTRATION CURVE_NUMBER
    401 GREEN_AMPT | INFILTRATION GREEN_AMPT
    good           | FLOW_ROUTING DYNWAVE
    401 KINWAVE    | FLOW_ROUTING KINWAVE
    good           | INERTIAL_DAMPING NONE
    good           | INERTIAL_DAMPING PARTIAL
    good           | INERTIAL_DAMPING FULL
    205 HALF       | INERTIAL_DAMPING HALF
    good           | NORMAL_FLOW_LIMITED SLOPE
    good           | NORMAL_FLOW_LIMITED FROUDE
    good           | NORMAL_FLOW_LIMITED BOTH
    205 NEITHER    | NORMAL_FLOW_LIMITED NEITHER
    good           | ALLOW_PONDING YES
    good           | ALLOW_PONDING NO
    205 1          | ALLOW_PONDING 1
    good           | SKIP_STEADY_STATE NO
    401 YES        | SKIP_STEADY_STATE YES
    205 0          | SKIP_STEADY_STATE 0
    good           | IGNORE_RAINFALL NO
    401 YES        | IGNORE_RAINFALL YES
    205 0          | IGNORE_RAINFALL 0
    good           | IGNORE_ROUTING NO
    401 YES        | IGNORE_ROUTING YES
    205 0          | IGNORE_ROUTING 0
    good           | LINK_OFFSETS DEPTH
    401 ELEVATION  | LINK_OFFSETS ELEVATION
    205 HEIGHT     | LINK_OFFSETS HEIGHT
    good           | SURCHARGE_METHOD SLOT
    good           | SURCHARGE_METHOD EXTRAN
    205 TUBE       | SURCHARGE_METHOD TUBE
    ",
    below: "",
};

pub(crate) const NUMBERS: Lines = Lines {
    above: "[OPTIONS]",
    rows: "
    good        | MIN_SURFAREA 0
    good        | MIN_SURFAREA 0.01
    211 0.009   | MIN_SURFAREA 0.009
    211 -1      | MIN_SURFAREA -1
    good        | HEAD_TOLERANCE 0
    good        | HEAD_TOLERANCE 0.0015
    211 -0.0015 | HEAD_TOLERANCE -0.0015
    good        | MAX_TRIALS 0
    good        | MAX_TRIALS 20
    402 21      | MAX_TRIALS 21
    211 8.0     | MAX_TRIALS 8.0
    good        | THREADS 4
    211 four    | THREADS four
    good        | VARIABLE_STEP 0
    good        | VARIABLE_STEP 0.75
    good        | VARIABLE_STEP 2
    211 2.1     | VARIABLE_STEP 2.1
    good        | LENGTHENING_STEP 0
    401 5       | LENGTHENING_STEP 5
    good        | MIN_SLOPE 0.0
    401 0.1     | MIN_SLOPE 0.1
    ",
    below: "",
};

pub(crate) const TIMES: Lines = Lines {
    above: "[OPTIONS]",
    rows: "
    good           | START_DATE 1/1/2024
    good           | START_DATE 01-01-2024
    213 1/1-2024   | START_DATE 1/1-2024
    213 02/30/2024 | START_DATE 02/30/2024
    good           | END_DATE 01/02/2024
    213 2024/01/02 | END_DATE 2024/01/02
    good           | START_TIME 0:00
    213 24:00      | START_TIME 24:00
    good           | END_TIME 23:59:59
    213 12:60      | END_TIME 12:60
    good           | REPORT_STEP 0:00:01
    good           | REPORT_STEP 24:00
    213 24:00:01   | REPORT_STEP 24:00:01
    213 0:00:00    | REPORT_STEP 0:00:00
    213 60         | REPORT_STEP 60
    good           | WET_STEP 0:00:01
    good           | WET_STEP 1:00
    213 1:00:01    | WET_STEP 1:00:01
    good           | ROUTING_STEP 0.01
    good           | ROUTING_STEP 1:00:00
    213 0.004      | ROUTING_STEP 0.004
    213 3600.1     | ROUTING_STEP 3600.1
    good           | RULE_STEP 0:00:00
    401 0:05:00    | RULE_STEP 0:05:00
    ",
    below: "",
};

pub(crate) const UNUSED: Lines = Lines {
    above: "[OPTIONS]",
    rows: "
    good                  | REPORT_START_DATE any
    good                  | REPORT_START_TIME any
    good                  | SWEEP_START 01/01
    good                  | SWEEP_END 12/31
    good                  | DRY_DAYS 0
    good                  | DRY_STEP 01:00:00
    good                  | FORCE_MAIN_EQUATION H-W
    good                  | SYS_FLOW_TOL 5
    good                  | LAT_FLOW_TOL 5
    good                  | MINIMUM_STEP 0.5
    good                  | TEMPDIR here
    good                  | IGNORE_SNOWMELT YES
    good                  | IGNORE_GROUNDWATER YES
    good                  | IGNORE_RDII YES
    good                  | IGNORE_QUALITY YES
    203 REPORT_START_DATE | REPORT_START_DATE
    203 IGNORE_QUALITY    | IGNORE_QUALITY
    ",
    below: "",
};

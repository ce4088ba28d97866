// One reach: inputs of it, and figures of their reports.

// A reach with a constant inflow at its upper end.
pub(crate) const ONE_REACH: &[u8] = b"[TITLE]\n\
    one reach\n\
    [OPTIONS]\n\
    FLOW_UNITS CMS\n\
    START_DATE 01/01/2024\n\
    END_DATE 01/01/2024\n\
    END_TIME 00:00:20\n\
    ROUTING_STEP 10\n\
    REPORT_STEP 00:00:10\n\
    MAX_TRIALS 2\n\
    MIN_SURFAREA 50\n\
    INERTIAL_DAMPING FULL\n\
    [JUNCTIONS]\n\
    J1 0 3 1 0 0\n\
    [OUTFALLS]\n\
    O1 0 FIXED 1 NO\n\
    [CONDUITS]\n\
    C1 J1 O1 100 0.01 0 0 0 0\n\
    [XSECTIONS]\n\
    C1 RECT_OPEN 2 1 0 0 1\n\
    [INFLOWS]\n\
    J1 FLOW \"\" FLOW 1.0 1.0 0.1\n";

pub(crate) const ONE_REACH_ACCEPTED: &[u8] =
    b"SWMM5-FX REPORT\n\nInput Accepted\nSubcatchments 0\nNodes 2\nLinks 1\n";

pub(crate) const ONE_REACH_REPORT: &[u8] = b"SWMM5-FX REPORT\n\
    one reach\n\
    \n\
    Analysis Options\n\
    Flow Units CMS\n\
    Start 2024-01-01 00:00:00\n\
    End 2024-01-01 00:00:20\n\
    Routing Step 10000 ms\n\
    Report Step 10000 ms\n\
    \n\
    Step Continuity (mm3)\n\
    10000 1000000000 24660000 987750000 -12410000\n\
    20000 1000000000 120435000 890800000 -11235000\n\
    \n\
    Flow Routing Continuity (mm3)\n\
    Inflow 2000000000\n\
    Outfall 145095000\n\
    Flooding 0\n\
    Storage Change 1878550000\n\
    Error -23645000\n\
    \n\
    Node Depth Summary\n\
    J1 1.018785 20000 1.018785\n\
    O1 1.000000 0 1.000000\n\
    \n\
    Node Flooding Summary (mm3)\n\
    \n\
    Outfall Loading Summary\n\
    O1 145095000 0.019155\n\
    \n\
    Link Flow Summary\n\
    C1 0.019155 20000 0.019155\n\
    \n\
    Subcatchment Runoff Summary (mm3)\n\
    \n\
    Runoff Quantity Continuity (mm3)\n\
    Rain 0\n\
    Infiltration 0\n\
    Runoff 0\n\
    Storage Change 0\n\
    Error 0\n\
    \n\
    Routing Steps\n\
    Steps 2\n\
    Trials 4\n\
    Not Converged 0\n\
    End of report\n";

// The same reach in lines that end in CR LF, with a key of four small letters, and without a last line end.
pub(crate) const OTHER_LINE_ENDS: &[u8] = b"[TITLE]\r\n\
    one reach\r\n\
    [OPTIONS]\r\n\
    FLOW_UNITS CMS\r\n\
    START_DATE 01/01/2024\r\n\
    END_DATE 01/01/2024\r\n\
    END_TIME 00:00:20\r\n\
    ROUTING_STEP 10\r\n\
    REPORT_STEP 00:00:10\r\n\
    MAX_TRIALS 2\r\n\
    MIN_SURFAREA 50\r\n\
    INERTIAL_DAMPING FULL\r\n\
    [junc]\r\n\
    J1 0 3 1 0 0\r\n\
    [OUTFALLS]\r\n\
    O1 0 FIXED 1 NO\r\n\
    [CONDUITS]\r\n\
    C1 J1 O1 100 0.01 0 0 0 0\r\n\
    [XSECTIONS]\r\n\
    C1 RECT_OPEN 2 1 0 0 1\r\n\
    [INFLOWS]\r\n\
    J1 FLOW \"\" FLOW 1.0 1.0 0.1";

// The outfall stands higher than the junction, and nothing else comes in; one trial a step.
pub(crate) const BACKWATER: &[u8] = b"[TITLE]\n\
    one reach\n\
    [OPTIONS]\n\
    FLOW_UNITS CMS\n\
    START_DATE 01/01/2024\n\
    END_DATE 01/01/2024\n\
    END_TIME 00:00:10\n\
    ROUTING_STEP 10\n\
    REPORT_STEP 00:00:10\n\
    MAX_TRIALS 1\n\
    MIN_SURFAREA 50\n\
    INERTIAL_DAMPING FULL\n\
    [JUNCTIONS]\n\
    J1 0 3 1 0 0\n\
    [OUTFALLS]\n\
    O1 0 FIXED 1.1 NO\n\
    [CONDUITS]\n\
    C1 J1 O1 100 0.01 0 0 0 0\n\
    [XSECTIONS]\n\
    C1 RECT_OPEN 2 1 0 0 1\n";

pub(crate) const BACKWATER_FIGURES: &[u8] = b"Report Step 10000 ms\n\
    \n\
    Step Continuity (mm3)\n\
    10000 0 -515265000 515350000 -85000\n\
    \n\
    Flow Routing Continuity (mm3)\n\
    Inflow 0\n\
    Outfall -515265000\n\
    Flooding 0\n\
    Storage Change 515350000\n\
    Error -85000\n\
    \n\
    Node Depth Summary\n\
    J1 1.005153 10000 1.005153\n\
    O1 1.100000 0 1.100000\n\
    \n\
    Node Flooding Summary (mm3)\n\
    \n\
    Outfall Loading Summary\n\
    O1 -515265000 0.000000\n\
    \n\
    Link Flow Summary\n\
    C1 0.103053 10000 -0.103053\n\
    \n\
    Subcatchment Runoff Summary (mm3)\n\
    \n\
    Runoff Quantity Continuity (mm3)\n\
    Rain 0\n\
    Infiltration 0\n\
    Runoff 0\n\
    Storage Change 0\n\
    Error 0\n\
    \n\
    Routing Steps\n\
    Steps 1\n\
    Trials 1\n\
    Not Converged 1\n\
    End of report\n";

// One trial a step, so that no step settles.
pub(crate) const ONE_TRIAL: &[u8] = b"[TITLE]\n\
    one reach\n\
    [OPTIONS]\n\
    FLOW_UNITS CMS\n\
    START_DATE 01/01/2024\n\
    END_DATE 01/01/2024\n\
    END_TIME 00:00:20\n\
    ROUTING_STEP 10\n\
    REPORT_STEP 00:00:10\n\
    MAX_TRIALS 1\n\
    MIN_SURFAREA 50\n\
    INERTIAL_DAMPING FULL\n\
    [JUNCTIONS]\n\
    J1 0 3 1 0 0\n\
    [OUTFALLS]\n\
    O1 0 FIXED 1 NO\n\
    [CONDUITS]\n\
    C1 J1 O1 100 0.01 0 0 0 0\n\
    [XSECTIONS]\n\
    C1 RECT_OPEN 2 1 0 0 1\n\
    [INFLOWS]\n\
    J1 FLOW \"\" FLOW 1.0 1.0 0.1\n";

pub(crate) const ONE_TRIAL_FIGURES: &[u8] = b"\n\
    Node Depth Summary\n\
    J1 1.019507 20000 1.019507\n\
    O1 1.000000 0 1.000000\n\
    \n\
    Node Flooding Summary (mm3)\n\
    \n\
    Outfall Loading Summary\n\
    O1 49320000 0.009864\n\
    \n\
    Link Flow Summary\n\
    C1 0.009864 20000 0.009864\n\
    \n\
    Subcatchment Runoff Summary (mm3)\n\
    \n\
    Runoff Quantity Continuity (mm3)\n\
    Rain 0\n\
    Infiltration 0\n\
    Runoff 0\n\
    Storage Change 0\n\
    Error 0\n\
    \n\
    Routing Steps\n\
    Steps 2\n\
    Trials 2\n\
    Not Converged 2\n\
    End of report\n";

// The first of these steps alone.
pub(crate) const FIRST_STEP: &[u8] = b"[TITLE]\n\
    one reach\n\
    [OPTIONS]\n\
    FLOW_UNITS CMS\n\
    START_DATE 01/01/2024\n\
    END_DATE 01/01/2024\n\
    END_TIME 00:00:10\n\
    ROUTING_STEP 10\n\
    REPORT_STEP 00:00:10\n\
    MAX_TRIALS 1\n\
    MIN_SURFAREA 50\n\
    INERTIAL_DAMPING FULL\n\
    [JUNCTIONS]\n\
    J1 0 3 1 0 0\n\
    [OUTFALLS]\n\
    O1 0 FIXED 1 NO\n\
    [CONDUITS]\n\
    C1 J1 O1 100 0.01 0 0 0 0\n\
    [XSECTIONS]\n\
    C1 RECT_OPEN 2 1 0 0 1\n\
    [INFLOWS]\n\
    J1 FLOW \"\" FLOW 1.0 1.0 0.1\n";

pub(crate) const FIRST_STEP_FIGURES: &[u8] = b"\n\
    Node Depth Summary\n\
    J1 1.010000 10000 1.010000\n\
    O1 1.000000 0 1.000000\n\
    \n\
    Node Flooding Summary (mm3)\n\
    \n\
    Outfall Loading Summary\n\
    O1 0 0.000000\n\
    \n\
    Link Flow Summary\n\
    C1 0.000000 0 0.000000\n\
    \n\
    Subcatchment Runoff Summary (mm3)\n\
    \n\
    Runoff Quantity Continuity (mm3)\n\
    Rain 0\n\
    Infiltration 0\n\
    Runoff 0\n\
    Storage Change 0\n\
    Error 0\n\
    \n\
    Routing Steps\n\
    Steps 1\n\
    Trials 1\n\
    Not Converged 1\n\
    End of report\n";

// A surcharge method that is taken as another, with a warning.
pub(crate) const WARNED: &[u8] = b"[TITLE]\n\
    one reach\n\
    [OPTIONS]\n\
    FLOW_UNITS LPS\n\
    SURCHARGE_METHOD EXTRAN\n\
    START_DATE 2-29-2024\n\
    START_TIME 6:30\n\
    END_TIME 6:30:20\n\
    INERTIAL_DAMPING FULL\n\
    [JUNCTIONS]\n\
    J1 0 3\n\
    [OUTFALLS]\n\
    O1 0 FIXED 1\n\
    [CONDUITS]\n\
    C1 J1 O1 100 0.01 0 0\n\
    [XSECTIONS]\n\
    C1 RECT_OPEN 2 1\n";

pub(crate) const WARNED_HEAD: &[u8] = b"SWMM5-FX REPORT\n\
    one reach\n\
    WARNING slot method used\n\
    \n\
    Analysis Options\n\
    Flow Units LPS\n\
    Start 2024-02-29 06:30:00\n\
    End 2024-02-29 06:30:20\n\
    Routing Step 20000 ms\n\
    Report Step 900000 ms\n";

// The same reach in cubic feet a second, feet and US units.
pub(crate) const FEET: &[u8] = b"[TITLE]\n\
    one reach\n\
    [OPTIONS]\n\
    FLOW_UNITS CFS\n\
    START_DATE 01/01/2024\n\
    END_DATE 01/01/2024\n\
    END_TIME 00:00:20\n\
    ROUTING_STEP 10\n\
    REPORT_STEP 00:00:10\n\
    MAX_TRIALS 2\n\
    MIN_SURFAREA 500\n\
    INERTIAL_DAMPING FULL\n\
    [JUNCTIONS]\n\
    J1 0 10 3 0 0\n\
    [OUTFALLS]\n\
    O1 0 FIXED 3 NO\n\
    [CONDUITS]\n\
    C1 J1 O1 300 0.01 0 0 0 0\n\
    [XSECTIONS]\n\
    C1 RECT_OPEN 6 3 0 0 1\n\
    [INFLOWS]\n\
    J1 FLOW \"\" FLOW 1.0 1.0 4\n";

pub(crate) const FEET_FIGURES: &[u8] = b"Flow Routing Continuity (mm3)\n\
    Inflow 2265340000\n\
    Outfall 170550000\n\
    Flooding 0\n\
    Storage Change 2122586844\n\
    Error -27796844\n\
    \n\
    Node Depth Summary\n\
    J1 3.078901 20000 3.078901\n\
    O1 3.000000 0 3.000000\n\
    \n\
    Node Flooding Summary (mm3)\n\
    \n\
    Outfall Loading Summary\n\
    O1 170550000 0.794933\n\
    \n\
    Link Flow Summary\n\
    C1 0.794933 20000 0.794933\n\
    \n\
    Subcatchment Runoff Summary (mm3)\n\
    \n\
    Runoff Quantity Continuity (mm3)\n\
    Rain 0\n\
    Infiltration 0\n\
    Runoff 0\n\
    Storage Change 0\n\
    Error 0\n\
    \n\
    Routing Steps\n\
    Steps 2\n\
    Trials 4\n\
    Not Converged 0\n\
    End of report\n";

// Two nodes and no link: the run has no step.
pub(crate) const NO_STEPS: &[u8] = b"[JUNCTIONS]\n\
    J1 0\n\
    [OUTFALLS]\n\
    O1 0 FREE NO\n";

pub(crate) const NO_STEPS_REPORT: &[u8] = b"SWMM5-FX REPORT\n\
    \n\
    Analysis Options\n\
    Flow Units CFS\n\
    Start 2002-01-01 00:00:00\n\
    End 2002-01-01 00:00:00\n\
    Routing Step 20000 ms\n\
    Report Step 900000 ms\n\
    \n\
    Step Continuity (mm3)\n\
    \n\
    Flow Routing Continuity (mm3)\n\
    Inflow 0\n\
    Outfall 0\n\
    Flooding 0\n\
    Storage Change 0\n\
    Error 0\n\
    \n\
    Node Depth Summary\n\
    J1 0.000000 0 0.000000\n\
    O1 0.000000 0 0.000000\n\
    \n\
    Node Flooding Summary (mm3)\n\
    \n\
    Outfall Loading Summary\n\
    O1 0 0.000000\n\
    \n\
    Link Flow Summary\n\
    \n\
    Subcatchment Runoff Summary (mm3)\n\
    \n\
    Runoff Quantity Continuity (mm3)\n\
    Rain 0\n\
    Infiltration 0\n\
    Runoff 0\n\
    Storage Change 0\n\
    Error 0\n\
    \n\
    Routing Steps\n\
    Steps 0\n\
    Trials 0\n\
    Not Converged 0\n\
    End of report\n";

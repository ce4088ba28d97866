// Inputs that are refused, and their reports.

pub(crate) const EMPTY_REPORT: &[u8] = b"SWMM5-FX REPORT\n\nInput Faults\nERROR 145: no outfall\n";

pub(crate) const TOO_LONG_REPORT: &[u8] =
    b"SWMM5-FX REPORT\n\nInput Faults\nERROR 402 input longer than 33554432 bytes\n";

pub(crate) const FAULTY_INPUT: &[u8] = b"[JUNCTIONS]\nJ1\nJ1 x\nJ2 0\nJ2 0\n";

pub(crate) const FAULTY_REPORT: &[u8] = b"SWMM5-FX REPORT\n\
    \n\
    Input Faults\n\
    ERROR 203 line 2: too few items J1\n\
    ERROR 211 line 3: invalid number x\n\
    ERROR 207 line 5: duplicate name J2\n";

// A reach whose run would last from one date to the other.
pub(crate) const REACH: &[u8] = b"[OPTIONS]\n\
    FLOW_UNITS CMS\n\
    INERTIAL_DAMPING FULL\n\
    START_DATE 01/01/2000\n\
    [JUNCTIONS]\n\
    J1 0 1\n\
    [OUTFALLS]\n\
    O1 0 FIXED 1 NO\n\
    [CONDUITS]\n\
    C1 J1 O1 100 0.01 0 0\n\
    [XSECTIONS]\n\
    C1 RECT_OPEN 1 1\n\
    [OPTIONS]\n\
    END_DATE ";

pub(crate) const OVER_LIMIT_REPORT: &[u8] =
    b"SWMM5-FX REPORT\n\nInput Faults\nERROR 402: over a limit\n";

pub(crate) const BACKWARD_INPUT: &[u8] = b"[OPTIONS]\nSTART_DATE 01/02/2000\nEND_DATE 01/01/2000\n";

pub(crate) const BACKWARD_REPORT: &[u8] =
    b"SWMM5-FX REPORT\n\nInput Faults\nERROR 145: no outfall\nERROR 191: end before start\n";

// Why a command could not end.
use std::fmt;

/// A port of a command: its input, the hotstart that it reads, its report, the hotstart that it writes.
#[derive(Clone, Copy, Debug, PartialEq, Eq)]
pub enum Port {
    Inp,
    HotIn,
    Rpt,
    HotOut,
}

impl fmt::Display for Port {
    ghost use Rattle.std.specs.Prelude.{Some};
    ghost use Rattle.swmm_top.specs.TopFaults.{port_name};

    ghost output = { λ port. Some (port_name port) };

    fn fmt<W: fmt::Write>(&self, f: &mut fmt::Formatter<W>) -> fmt::Result {
        match self {
            Port::Inp => f.write_str("inp"),
            Port::HotIn => f.write_str("hot-in"),
            Port::Rpt => f.write_str("rpt"),
            Port::HotOut => f.write_str("hot-out"),
        }
    }
}

/// Why a command could not end: a source failed, a sink failed, or there was no memory.
#[derive(Clone, Copy, Debug, PartialEq, Eq)]
pub enum TopFault {
    Read(Port),
    Write(Port),
    OutOfMemory,
}

impl fmt::Display for TopFault {
    ghost use Rattle.std.specs.Prelude.{Some};
    ghost use Rattle.swmm_top.specs.TopFaults.{fault_text};

    ghost output = { λ fault. Some (fault_text fault) };

    fn fmt<W: fmt::Write>(&self, f: &mut fmt::Formatter<W>) -> fmt::Result {
        match self {
            TopFault::Read(port) => write!(f, "read fault: {port}"),
            TopFault::Write(port) => write!(f, "write fault: {port}"),
            TopFault::OutOfMemory => f.write_str("out of memory"),
        }
    }
}

impl std::error::Error for TopFault {}

// The line that the program prints, and the status that it ends with.
ghost use Rattle.std.specs.Prelude.{◌≡◌};
ghost use Rattle.swmm5_fx.specs.Lines.{line_for};
ghost use Rattle.swmm5_fx.specs.Statuses.{exit_status};

use std::fmt;
use swmm_top::{Status, TopFault};

/// A line that the program prints: how it is called, or why a command could not end.
#[derive(Clone, Copy)]
pub(crate) enum Line {
    Usage,
    Fault(TopFault),
}

impl fmt::Display for Line {
    ghost use Rattle.std.specs.Prelude.{Some};
    ghost use Rattle.swmm5_fx.specs.Lines.{line_text};

    ghost output = { λ line. Some (line_text line) };

    fn fmt<W: fmt::Write>(&self, f: &mut fmt::Formatter<W>) -> fmt::Result {
        match self {
            Line::Usage => f.write_str(
                "usage: swmm5_fx run INP RPT [--threads N] [--hot-in F] [--hot-out F] | check INP RPT | demo N RPT [--threads N]",
            ),
            Line::Fault(fault) => write!(f, "{fault}"),
        }
    }
}

/// The line of an answer. None where the work was done, or where the report says why it wasn't.
pub(crate) fn line_of(answer: Result<Status, TopFault>) -> Option<Line>
    ensures { result ≡ line_for answer }
{
    match answer {
        Ok(Status::Done) | Ok(Status::Refused) => None,
        Ok(Status::Usage) => Some(Line::Usage),
        Err(fault) => Some(Line::Fault(fault)),
    }
}

/// The status of an answer.
pub(crate) fn status_of(answer: Result<Status, TopFault>) -> u8
    ensures { result ≡ exit_status answer }
{
    match answer {
        Ok(Status::Done) => 0,
        Ok(Status::Refused) => 1,
        Ok(Status::Usage) => 2,
        Err(TopFault::Read(_)) => 3,
        Err(TopFault::Write(_)) => 4,
        Err(TopFault::OutOfMemory) => 5,
    }
}

// Putting a piece, or several in a row, whole.
ghost use Rattle.std.specs.List.{flat_map};
ghost use Rattle.fault_ports.specs.Causes.{HasCause};
ghost use Rattle.fault_ports.specs.Output.{Puts};

use crate::faults::Failed;
use crate::ports::Sink;

/// Puts all the bytes, in as many calls as the sink needs. After `Failed`, which comes only where a call of the sink
/// failed, a front of them was put, and no further call was made.
pub fn put_all<W: Sink>(to: &mut W, bytes: &[u8]) -> Result<(), Failed>
    ensures bytes { Puts (W.held to.old) (W.held to.new) bytes.now result }
    ensures cause { HasCause (W.faults to.old) (W.faults to.new) result }
{
    let mut at = 0;
    while at < bytes.len() {
        at += to.put(&bytes[at..])?;
    }
    Ok(())
}

/// Puts these pieces one after the other. After `Failed`, which comes only where a call of the sink failed, a front
/// of all of them together was put, and no further call was made.
pub fn put_parts<W: Sink>(to: &mut W, parts: &[&[u8]]) -> Result<(), Failed>
    ensures bytes { Puts (W.held to.old) (W.held to.new) (flat_map (λ part. part.now) parts.now) result }
    ensures cause { HasCause (W.faults to.old) (W.faults to.new) result }
{
    for part in parts {
        match put_all(to, part) {
            Ok(()) => {}
            Err(failed) => return Err(failed),
        }
    }
    Ok(())
}

// The ports, and what every one of them keeps.
ghost use Rattle.std.specs.Prelude.{List, Option, ℕ, ◌≡◌, ◌≤◌, ◌<◌, false, length, IfOk, OnOk};
ghost use Rattle.std.specs.Io.KnownBytes.{ReadConsumes, WriteAppends};
ghost use Rattle.fault_ports.specs.Causes.{HasCause};
ghost use Rattle.fault_ports.specs.declared.faults.Faults.{Faults};

use crate::faults::Failed;

/// Bytes that can be taken once, in their order.
pub trait Source {
    /// What is left, where the source tells it.
    ghost left: { Self → Option (List ℕ) };

    /// How often the source's calls failed, and whether the last one did.
    ghost faults: { Self → Faults };

    /// Takes bytes into the front of the buffer and gives their number. 0 for a buffer that isn't empty is the end
    /// of input. After `Failed`, which comes only where one more fault was counted, what is left is as it was.
    fn take(&mut self, buf: &mut [u8]) -> Result<usize, Failed>
        ensures within { IfOk result (λ count. count ≤ length buf.new) }
        ensures bytes { ReadConsumes (left self.old) (left self.new) result buf.new }
        ensures cause { HasCause (faults self.old) (faults self.new) result }
        ensures answered { OnOk result ((faults self.new).failed ≡ false) };
}

/// A place that bytes are appended to.
pub trait Sink {
    /// What the sink holds, where it tells it.
    ghost held: { Self → Option (List ℕ) };

    /// How often the sink's calls failed, and whether the last one did.
    ghost faults: { Self → Faults };

    /// Appends a front of the piece and gives its length, which is 0 only for an empty piece. After `Failed`, which
    /// comes only where one more fault was counted, the sink holds what it held.
    fn put(&mut self, piece: &[u8]) -> Result<usize, Failed>
        ensures within { IfOk result (λ count. count ≤ length piece.now) }
        ensures moves { IfOk result (λ count. 0 < length piece.now → 0 < count) }
        ensures bytes { WriteAppends (held self.old) (held self.new) result piece.now }
        ensures cause { HasCause (faults self.old) (faults self.new) result }
        ensures answered { OnOk result ((faults self.new).failed ≡ false) };
}

/// What a worker calls between claiming an item and depositing its first share.
pub trait Gate {
    /// Returns, and changes no answer. `seat` is the number of the worker in its crew, `phase` is 1 for a link and
    /// 2 for a node, and `item` is the number of that link or node.
    fn pass(&self, seat: u32, phase: u32, item: u32);
}

/// A gate that returns at once.
#[derive(Clone, Copy, Debug, PartialEq, Eq)]
pub struct OpenGate;

impl Gate for OpenGate {
    fn pass(&self, _seat: u32, _phase: u32, _item: u32) {}
}

// A sink that keeps nothing.
ghost use Rattle.std.specs.Prelude.{◌≡◌, ◌≤◌, ◌<◌, false, length, None, IfOk, OnOk};
ghost use Rattle.std.specs.Io.KnownBytes.{WriteAppends};
ghost use Rattle.fault_ports.specs.Causes.{HasCause, no_faults};

use fault_ports::{Failed, Sink};

/// A sink that accepts every piece, keeps nothing, tells nothing and never fails.
#[derive(Debug, Drop)]
pub(crate) struct Nowhere;

impl Sink for Nowhere {
    ghost held = { λ _. None };

    ghost faults = { λ _. no_faults };

    fn put(&mut self, piece: &[u8]) -> Result<usize, Failed> {
        Ok(piece.len())
    }
}

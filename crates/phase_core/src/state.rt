// The machine without its law.
use crate::seat::Seat;
use net_types::List;
use std::marker::Model;
use trial_model::Nets;

/// The machine without its law. Contracts see it as the core of the machine.
///
/// `words` are the words of the machine, `opened` those at the last opening of links, `closed` is the state after the
/// trial that was closed last.
#[derive(Debug, Drop)]
pub(crate) struct State {
    pub(crate) phase: u64,
    pub(crate) is_open: bool,
    pub(crate) index: u64,
    pub(crate) words: List<i64>,
    pub(crate) seats: Vec<Seat>,
    pub(crate) resets: u64,
    pub(crate) stopped: bool,
    pub(crate) opened: List<i64>,
    pub(crate) closed: Nets,
}

impl Model for State {
    ghost use Rattle.phase_machine.specs.Core.{Core};

    ghost Value = { Core };

    ghost view = { λ s. record {
      phase = s.phase;
      is_open = s.is_open;
      index = s.index;
      words = s.words;
      seats = s.seats.items;
      resets = s.resets;
      stopped = s.stopped;
      opened = s.opened;
      closed = s.closed;
    } };
}

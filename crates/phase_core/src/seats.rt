// What one of several seats does.
ghost use Rattle.std.specs.Prelude.{◌≡◌, ◌+◌, ◌<◌, ◌≤◌, [], ◌∷◌, ◌++◌, length, slice_index_or, slice_set};
ghost use Rattle.phase_machine.specs.Core.{idle, finished_in};
ghost use Rattle.phase_machine.specs.Steps.{further, loaded_more};

use crate::seat::Seat;

/// A seat keeps the phase in which it saw that items are left, or 0.
pub(crate) fn keep_look(seats: &mut [Seat], seat: usize, look: u64)
    requires { seat < length seats.old }
    ensures { let w = slice_index_or seats.old seat idle in
        seats.new ≡ slice_set seats.old seat (record w { look = look }) }
{
    seats[seat].keep_look(look);
}

/// A seat takes an item of a phase.
pub(crate) fn take_item(seats: &mut [Seat], seat: usize, phase: u64, item: u64)
    requires { seat < length seats.old }
    ensures { let w = slice_index_or seats.old seat idle in
        seats.new ≡ slice_set seats.old seat (record {
          look = 0;
          tag = phase;
          stage = 1;
          item = item;
          loaded = [];
          finished = finished_in phase w;
        }) }
{
    seats[seat].take_item(phase, item);
}

/// A seat has made one act more on its item.
pub(crate) fn advance(seats: &mut [Seat], seat: usize)
    requires seat { seat < length seats.old }
    requires stage { (slice_index_or seats.old seat idle).stage ≤ 15 }
    ensures { seats.new ≡ slice_set seats.old seat (further (slice_index_or seats.old seat idle)) }
{
    seats[seat].advance();
}

/// A seat keeps a number that it loaded for its item.
pub(crate) fn keep_load(seats: &mut [Seat], seat: usize, value: i64)
    requires seat { seat < length seats.old }
    requires stage { (slice_index_or seats.old seat idle).stage ≤ 15 }
    requires room { length (slice_index_or seats.old seat idle).loaded < 10 }
    ensures { seats.new ≡ slice_set seats.old seat (loaded_more (slice_index_or seats.old seat idle) value) }
{
    seats[seat].keep_load(value);
}

/// A seat has finished its item.
pub(crate) fn finish(seats: &mut [Seat], seat: usize)
    requires seat { seat < length seats.old }
    requires room { length (slice_index_or seats.old seat idle).finished < 20_000 }
    ensures { let w = slice_index_or seats.old seat idle in
        seats.new ≡ slice_set seats.old seat (record w { stage = 0; finished = w.finished ++ w.item ∷ [] }) }
{
    seats[seat].finish();
}

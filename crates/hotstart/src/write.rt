// Writing a hotstart file.
ghost use Rattle.std.specs.Prelude.{◌≡◌, ◌*◌, ◌≤◌, [], ◌∷◌, ◌++◌, length, drop};
ghost use Rattle.std.specs.List.{flat_map, zip};
ghost use Rattle.fault_ports.specs.Causes.{HasCause};
ghost use Rattle.fault_ports.specs.Output.{Puts};
ghost use Rattle.hotstart.specs.HotBytes.{hot_bytes, header, count_bytes, value_bytes};
ghost use Rattle.hotstart.specs.HotBytes.{link_bytes, sub_bytes, kept as kept_of};
ghost use Rattle.hotstart.specs.HotRanges.{IsHotState};

use crate::checks::kind_number;
use crate::state::{HotState, HotSub};
use byteorder::{ByteOrder, LittleEndian};
use fault_ports::{Failed, Sink, put_all};
use infiltration::InfilState;

const MOST: i64 = 1_000_000_000_000_000;

/// Puts the bytes of a state as a hotstart of version 2. After `Failed`, which comes only where a call of the
/// sink failed, a front of them was put. A depth or a number of infiltration above 10^15 is written as 10^15.
/// No memory is taken.
///
/// Source: this project's profile.
pub fn write_hot<K: Sink>(to: &mut K, state: &HotState) -> Result<(), Failed>
    requires { IsHotState state.now }
    ensures bytes { Puts (K.held to.old) (K.held to.new) (hot_bytes state.now) result }
    ensures cause { HasCause (K.faults to.old) (K.faults to.new) result }
{
    match put_nets(to, state) {
        Ok(()) => put_runoff(to, state),
        Err(failed) => Err(failed),
    }
}

// Puts the header, and the values of nodes and links.
fn put_nets<K: Sink>(to: &mut K, state: &HotState) -> Result<(), Failed>
    requires { IsHotState state.now }
    ensures bytes { Puts (K.held to.old) (K.held to.new)
        (header state.now ++ flat_map value_bytes state.now.heads
        ++ flat_map link_bytes (zip state.now.flows state.now.settings)) result }
    ensures cause { HasCause (K.faults to.old) (K.faults to.new) result }
{
    match put_head_and_heads(to, state) {
        Ok(()) => put_links(to, state.flows.as_slice(), state.settings.as_slice()),
        Err(failed) => Err(failed),
    }
}

// Puts the header and the heads.
fn put_head_and_heads<K: Sink>(to: &mut K, state: &HotState) -> Result<(), Failed>
    requires { IsHotState state.now }
    ensures bytes { Puts (K.held to.old) (K.held to.new)
        (header state.now ++ flat_map value_bytes state.now.heads) result }
    ensures cause { HasCause (K.faults to.old) (K.faults to.new) result }
{
    match put_header(to, state) {
        Ok(()) => put_values(to, state.heads.as_slice()),
        Err(failed) => Err(failed),
    }
}

// Puts the magic word, the counts and the kind of infiltration.
fn put_header<K: Sink>(to: &mut K, state: &HotState) -> Result<(), Failed>
    requires { IsHotState state.now }
    ensures bytes { Puts (K.held to.old) (K.held to.new) (header state.now) result }
    ensures cause { HasCause (K.faults to.old) (K.faults to.new) result }
{
    let counts = [
        state.heads.as_slice().len() as u32,
        state.flows.as_slice().len() as u32,
        state.subs.as_slice().len() as u32,
        kind_number(&state.kind),
    ];
    match put_all(to, b"SWMMFXH2") {
        Ok(()) => put_counts(to, &counts),
        Err(failed) => Err(failed),
    }
}

// Puts counts.
fn put_counts<K: Sink>(to: &mut K, counts: &[u32]) -> Result<(), Failed>
    ensures bytes { Puts (K.held to.old) (K.held to.new) (flat_map count_bytes counts.now) result }
    ensures cause { HasCause (K.faults to.old) (K.faults to.new) result }
{
    for count in counts {
        match put_count(to, *count) {
            Ok(()) => {}
            Err(failed) => return Err(failed),
        }
    }
    Ok(())
}

// Puts a count.
#[tactic(auto, unfolding(crate::specs::HotBytes::count_bytes))]
fn put_count<K: Sink>(to: &mut K, count: u32) -> Result<(), Failed>
    ensures bytes { Puts (K.held to.old) (K.held to.new) (count_bytes count) result }
    ensures cause { HasCause (K.faults to.old) (K.faults to.new) result }
{
    let mut bytes = [0u8; 4];
    LittleEndian::write_u32(&mut bytes, count);
    put_all(to, &bytes)
}

// Puts values.
fn put_values<K: Sink>(to: &mut K, values: &[i64]) -> Result<(), Failed>
    ensures bytes { Puts (K.held to.old) (K.held to.new) (flat_map value_bytes values.now) result }
    ensures cause { HasCause (K.faults to.old) (K.faults to.new) result }
{
    for value in values {
        match put_value(to, value) {
            Ok(()) => {}
            Err(failed) => return Err(failed),
        }
    }
    Ok(())
}

// Puts a value.
#[tactic(auto, unfolding(crate::specs::HotBytes::value_bytes))]
fn put_value<K: Sink>(to: &mut K, value: &i64) -> Result<(), Failed>
    ensures bytes { Puts (K.held to.old) (K.held to.new) (value_bytes value.now) result }
    ensures cause { HasCause (K.faults to.old) (K.faults to.new) result }
{
    let mut bytes = [0u8; 8];
    LittleEndian::write_u64(&mut bytes, value.cast_unsigned());
    put_all(to, &bytes)
}

// Puts the flow and the setting of each link.
fn put_links<K: Sink>(to: &mut K, flows: &[i64], settings: &[i64]) -> Result<(), Failed>
    requires { length settings.now ≡ length flows.now }
    ensures bytes { Puts (K.held to.old) (K.held to.new) (flat_map link_bytes (zip flows.now settings.now)) result }
    ensures cause { HasCause (K.faults to.old) (K.faults to.new) result }
{
    for link in 0..flows.len() {
        match put_link(to, &flows[link], &settings[link]) {
            Ok(()) => {}
            Err(failed) => return Err(failed),
        }
    }
    Ok(())
}

// Puts the flow and the setting of a link.
fn put_link<K: Sink>(to: &mut K, flow: &i64, setting: &i64) -> Result<(), Failed>
    ensures bytes { Puts (K.held to.old) (K.held to.new) (value_bytes flow.now ++ value_bytes setting.now) result }
    ensures cause { HasCause (K.faults to.old) (K.faults to.new) result }
{
    match put_value(to, flow) {
        Ok(()) => put_value(to, setting),
        Err(failed) => Err(failed),
    }
}

// Puts the least travel time and the subcatchments.
fn put_runoff<K: Sink>(to: &mut K, state: &HotState) -> Result<(), Failed>
    ensures bytes { Puts (K.held to.old) (K.held to.new)
        (value_bytes state.now.least ++ flat_map sub_bytes state.now.subs) result }
    ensures cause { HasCause (K.faults to.old) (K.faults to.new) result }
{
    match put_value(to, &state.least) {
        Ok(()) => put_subs(to, state.subs.as_slice()),
        Err(failed) => Err(failed),
    }
}

// Puts the subcatchments.
fn put_subs<K: Sink>(to: &mut K, subs: &[HotSub]) -> Result<(), Failed>
    ensures bytes { Puts (K.held to.old) (K.held to.new) (flat_map sub_bytes subs.now) result }
    ensures cause { HasCause (K.faults to.old) (K.faults to.new) result }
{
    for sub in subs {
        match put_sub(to, sub) {
            Ok(()) => {}
            Err(failed) => return Err(failed),
        }
    }
    Ok(())
}

// Puts a subcatchment.
fn put_sub<K: Sink>(to: &mut K, sub: &HotSub) -> Result<(), Failed>
    ensures bytes { Puts (K.held to.old) (K.held to.new) (sub_bytes sub.now) result }
    ensures cause { HasCause (K.faults to.old) (K.faults to.new) result }
{
    let first = kept(sub.depths[0]);
    let second = kept(sub.depths[1]);
    let third = kept(sub.depths[2]);
    match sub.infil {
        InfilState::Horton(state) => put_values(
            to,
            &[first, second, third, sub.flow, kept(state.above)],
        ),
        InfilState::Number(state) => put_values(
            to,
            &[
                first,
                second,
                third,
                sub.flow,
                kept(state.room),
                kept(state.event_room),
                kept(state.rain),
                kept(state.taken),
                kept(state.dry),
            ],
        ),
    }
}

// A depth or a number of infiltration as a file keeps it.
#[tactic(auto, unfolding(crate::specs::HotBytes::kept))]
fn kept(value: i64) -> i64
    ensures { result ≡ kept_of value }
{
    value.min(MOST)
}

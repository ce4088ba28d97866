// The walk over lines.
ghost use Rattle.std.specs.Prelude.{◌≡◌, ◌≤◌, ◌<◌, ◌+◌, ◌∷◌, ◌++◌, [], ℕ, false};
ghost use Rattle.std.specs.Prelude.{get_or, set, length, List as Sequence};
ghost use Rattle.std.specs.Prelude.{None, Some, IfOk, OnOk};
ghost use Rattle.inp_lines.specs.declared.line.Line.{Line as DataLine};
ghost use Rattle.inp_lines.specs.Faults.{cut};
ghost use Rattle.inp_lines.specs.Gather.{fault_found, gather, walk_fault};
ghost use Rattle.inp_lines.specs.Names.{naming_among, number_in, with_first};
ghost use Rattle.inp_lines.specs.Numbers.{numbers_of};
ghost use Rattle.inp_lists.specs.Chains.{chain_fault, chain_names, chain_records, chain_states, counts, fault_by};
ghost use Rattle.inp_lists.specs.Chains.{fault_in, is_over, kept, line_name, names_in, own_lines};
ghost use Rattle.inp_lists.specs.Holding.{AreDistinct, AreNamed, HoldsLines, HoldsNames, with_counted};

use crate::chain::{Chain, text_at};
use crate::held::Held;
use inp_lines::{
    Fault, Line, Names, Naming, add_fault, add_first, fault_of_kind, naming_at, no_names,
    number_of, too_few,
};
use net_types::{FaultKind, LineFault, List, OutOfMemory};
use std::alloc::Global;

const MOST_PAIRS: usize = 1_000_000;

/// What lines of a kind give: the numbers of their names, and by these numbers the records and what is known of the
/// lines of each. `faults` are the first hundred faults of the lines.
#[derive(Drop)]
pub struct Chained<'a, R, S> {
    pub names: Names<'a>,
    pub records: List<R>,
    pub states: List<S>,
    pub faults: List<LineFault>,
}

/// Reads the records of a kind from all lines.
pub fn read_chain<'a, C: Chain>(
    alloc: Global,
    chain: &C,
    lines: &'a List<Line>,
) -> Result<Chained<'a, C::Record, C::State>, OutOfMemory>
    requires good { C.is_good chain.now }
    ensures names { IfOk result (λ read. numbers_of read.names
        ≡ number_in (chain_names (C.form chain.now) lines.now)) }
    ensures records { IfOk result (λ read. read.records ≡ chain_records (C.form chain.now) lines.now) }
    ensures states { IfOk result (λ read. read.states ≡ chain_states (C.form chain.now) lines.now) }
    ensures faults { IfOk result (λ read. read.faults
        ≡ cut (gather (walk_fault (chain_fault (C.form chain.now))) [] lines.now)) }
{
    let mut held = Held {
        names: no_names(alloc),
        count: 0,
        total: 0,
        records: List::new(alloc),
        states: List::new(alloc),
    };
    let faults = read_lines(alloc, chain, lines, &mut held)?;
    Ok(Chained {
        names: held.names,
        records: held.records,
        states: held.states,
        faults,
    })
}

/// Reads all lines in order, and gives their faults.
fn read_lines<'a, C: Chain>(
    alloc: Global,
    chain: &C,
    lines: &'a List<Line>,
    held: &mut Held<'a, C::Record, C::State>,
) -> Result<List<LineFault>, OutOfMemory>
    requires good { C.is_good chain.now }
    requires held { HoldsLines (C.form chain.now) (kept (C.form chain.now) []) held.old }
    ensures held { OnOk result (HoldsLines (C.form chain.now) (kept (C.form chain.now) lines.now) held.new) }
    ensures faults { IfOk result (λ faults. faults
        ≡ cut (gather (walk_fault (chain_fault (C.form chain.now))) [] lines.now)) }
{
    let mut faults = List::new(alloc);
    for line in lines.as_slice() {
        read_line(alloc, chain, line, held, &mut faults)?;
    }
    Ok(faults)
}

/// Reads one line.
fn read_line<'a, C: Chain>(
    alloc: Global,
    chain: &C,
    line: &'a Line,
    held: &mut Held<'a, C::Record, C::State>,
    faults: &mut List<LineFault>,
) -> Result<(), OutOfMemory>
    requires good { C.is_good chain.now }
    requires short { length faults.old ≤ 100 }
    ensures held { OnOk result ((before : Sequence DataLine)
        → HoldsLines (C.form chain.now) (kept (C.form chain.now) before) held.old
        → HoldsLines (C.form chain.now) (kept (C.form chain.now) (before ++ line.now ∷ [])) held.new) }
    ensures faults { OnOk result ((before : Sequence DataLine)
        → HoldsLines (C.form chain.now) (kept (C.form chain.now) before) held.old
        → faults.new ≡ cut (faults.old ++ walk_fault (chain_fault (C.form chain.now)) before line.now)) }
    ensures short { OnOk result (length faults.new ≤ 100) }
{
    if !chain.is_of(line) {
        return Ok(());
    }
    let name = name_of(line);
    let state = own_state(chain, held, name);
    let naming = naming_at(&held.names, name, held.count);
    let fault = line_fault(chain, state, naming, held.total, line);
    keep_line(alloc, chain, state, fault, line, held)?;
    keep_fault(alloc, line, fault, faults)?;
    Ok(())
}

/// The name of a line.
fn name_of(line: &Line) -> &[u8]
    ensures { result.now ≡ line_name line.now }
{
    text_at(line.tokens.as_slice(), 0)
}

/// The state of the lines of a name.
fn own_state<'a, C: Chain>(
    chain: &C,
    held: &Held<'a, C::Record, C::State>,
    name: &'a [u8],
) -> C::State
    ensures { (lines : Sequence DataLine) → HoldsLines (C.form chain.now) lines held.now
        → AreNamed lines → result ≡ (C.form chain.now).state_of (own_lines name.now lines) }
{
    match number_of(&held.names, name) {
        Some(number) => state_at(&held.states, number, chain.no_lines()),
        None => chain.no_lines(),
    }
}

/// The state at a place of a list; past the last there is another one.
fn state_at<S: Copy + Drop>(states: &List<S>, place: u32, other: S) -> S
    ensures { result ≡ get_or states.now place other }
{
    match states.as_slice().get(place as usize) {
        Some(state) => *state,
        None => other,
    }
}

/// The fault of a line of the kind.
fn line_fault<C: Chain>(
    chain: &C,
    state: C::State,
    naming: Naming,
    total: usize,
    line: &Line,
) -> Option<Fault>
    requires good { C.is_good chain.now }
    ensures { (own : Sequence DataLine) → state ≡ (C.form chain.now).state_of own → total ≤ 1_000_000
        → result ≡ fault_by (C.form chain.now) own naming total line.now }
{
    if chain.is_short(state, line) {
        return Some(too_few(line.tokens.as_slice()));
    }
    if is_over(naming) {
        return Some(fault_of_kind(FaultKind::OverLimit, 0));
    }
    if chain.size(state, line) > MOST_PAIRS.saturating_sub(total) {
        return Some(fault_of_kind(FaultKind::OverLimit, 0));
    }
    chain.item_fault(state, line)
}

/// Whether there are as many names as may be.
fn is_over(naming: Naming) -> bool
    ensures { result ≡ is_over naming }
{
    match naming {
        Naming::First | Naming::Repeated => false,
        Naming::OverLimit => true,
    }
}

/// Whether a line counts.
fn does_count(fault: Option<Fault>) -> bool
    ensures { result ≡ counts fault }
{
    match fault {
        None => true,
        Some(fault) => {
            fault.number != FaultKind::TooFewItems.number()
                && fault.number != FaultKind::OverLimit.number()
        }
    }
}

/// Appends the fault of a line, if it has one.
fn keep_fault(
    alloc: Global,
    line: &Line,
    fault: Option<Fault>,
    faults: &mut List<LineFault>,
) -> Result<(), OutOfMemory>
    requires short { length faults.old ≤ 100 }
    ensures faults { OnOk result (faults.new ≡ cut (faults.old ++ fault_found line.now fault)) }
    ensures short { OnOk result (length faults.new ≤ 100) }
{
    match fault {
        Some(fault) => add_fault(alloc, faults, line, fault),
        None => Ok(()),
    }
}

/// Adds a line to the record of its name, if it counts.
fn keep_line<'a, C: Chain>(
    alloc: Global,
    chain: &C,
    state: C::State,
    fault: Option<Fault>,
    line: &'a Line,
    held: &mut Held<'a, C::Record, C::State>,
) -> Result<(), OutOfMemory>
    requires good { C.is_good chain.now }
    ensures { OnOk result ((lines : Sequence DataLine) → HoldsLines (C.form chain.now) lines held.old
        → AreNamed lines → state ≡ (C.form chain.now).state_of (own_lines (line_name line.now) lines)
        → fault ≡ fault_in (C.form chain.now) lines line.now
        → HoldsLines (C.form chain.now) (with_counted lines line.now fault) held.new) }
{
    if !does_count(fault) {
        return Ok(());
    }
    let size = chain.size(state, line);
    let place = place_of(alloc, chain, held, name_of(line))?;
    add_line(alloc, chain, place, state, line, held)?;
    held.total = total_with(held.total, size);
    Ok(())
}

/// How many pairs there are with some more, if they are as many as may be.
fn total_with(total: usize, size: usize) -> usize
    ensures { total + size ≤ 1_000_000 → result ≡ total + size }
{
    total.saturating_add(size)
}

/// The number of a name, which is defined if it is new.
fn place_of<'a, C: Chain>(
    alloc: Global,
    chain: &C,
    held: &mut Held<'a, C::Record, C::State>,
    name: &'a [u8],
) -> Result<u32, OutOfMemory>
    ensures { IfOk result (λ place. (lines : Sequence DataLine)
        → HoldsNames (C.form chain.now) (names_in lines) lines held.old → AreNamed lines
        → is_over (naming_among (names_in lines) name.now) ≡ false
        → HoldsNames (C.form chain.now) (with_first (names_in lines) name.now) lines held.new
        × (number_in (with_first (names_in lines) name.now) name.now ≡ Some place)
        × (held.new.total ≡ held.old.total)) }
{
    match number_of(&held.names, name) {
        Some(number) => Ok(number),
        None => define(alloc, chain, held, name),
    }
}

/// Defines a new name, and gives its number.
fn define<'a, C: Chain>(
    alloc: Global,
    chain: &C,
    held: &mut Held<'a, C::Record, C::State>,
    name: &'a [u8],
) -> Result<u32, OutOfMemory>
    ensures { IfOk result (λ place. numbers_of held.old.names name.now ≡ None → (lines : Sequence DataLine)
        → HoldsNames (C.form chain.now) (names_in lines) lines held.old → AreNamed lines
        → is_over (naming_among (names_in lines) name.now) ≡ false
        → HoldsNames (C.form chain.now) (with_first (names_in lines) name.now) lines held.new
        × (number_in (with_first (names_in lines) name.now) name.now ≡ Some place)
        × (held.new.total ≡ held.old.total)) }
{
    let number = held.count;
    held.count = add_first(&mut held.names, name, number)?;
    held.records.push(chain.new_record(alloc, name)?)?;
    held.states.push(chain.no_lines())?;
    Ok(number)
}

/// Adds a line to the record at a place.
fn add_line<'a, C: Chain>(
    alloc: Global,
    chain: &C,
    place: u32,
    state: C::State,
    line: &Line,
    held: &mut Held<'a, C::Record, C::State>,
) -> Result<(), OutOfMemory>
    requires good { C.is_good chain.now }
    ensures { OnOk result ((names : Sequence (Sequence ℕ)) (name : Sequence ℕ) (lines : Sequence DataLine)
        → HoldsNames (C.form chain.now) names lines held.old → AreDistinct names
        → number_in names name ≡ Some place → name ≡ line_name line.now
        → state ≡ (C.form chain.now).state_of (own_lines name lines)
        → HoldsNames (C.form chain.now) names (lines ++ line.now ∷ []) held.new
        × (held.new.total ≡ held.old.total)) }
{
    let place = place as usize;
    if place >= held.records.as_slice().len() {
        return Ok(());
    }
    if place >= held.states.as_slice().len() {
        return Ok(());
    }
    let next = add_at(alloc, chain, &mut held.records, place, state, line)?;
    set_at(&mut held.states, place, next);
    Ok(())
}

/// Adds a line to the record at a place of a list, and gives the state then.
fn add_at<C: Chain>(
    alloc: Global,
    chain: &C,
    records: &mut List<C::Record>,
    place: usize,
    state: C::State,
    line: &Line,
) -> Result<C::State, OutOfMemory>
    requires good { C.is_good chain.now }
    requires within { place < length records.old }
    ensures record { IfOk result (λ _. (name : Sequence ℕ) (own : Sequence DataLine)
        → get_or records.old place ((C.form chain.now).record_of name own) ≡ (C.form chain.now).record_of name own
        → state ≡ (C.form chain.now).state_of own
        → records.new ≡ set records.old place ((C.form chain.now).record_of name (own ++ line.now ∷ []))) }
    ensures state { IfOk result (λ next. (own : Sequence DataLine) → state ≡ (C.form chain.now).state_of own
        → next ≡ (C.form chain.now).state_of (own ++ line.now ∷ [])) }
{
    let records = records.as_mut_slice();
    chain.add(alloc, &mut records[place], state, line)
}

/// Puts a state at a place of a list.
fn set_at<S: Copy + Drop>(states: &mut List<S>, place: usize, state: S)
    requires { place < length states.old }
    ensures { states.new ≡ set states.old place state }
{
    let states = states.as_mut_slice();
    states[place] = state;
}

// Kinds of records that are made of several lines.
ghost use Rattle.std.specs.Prelude.{◌≡◌, ◌∷◌, ◌++◌, [], ℕ, List as Sequence, IfOk};
ghost use Rattle.inp_lines.specs.declared.line.Line.{Line as DataLine};
ghost use Rattle.inp_lines.specs.Faults.{token_at};
ghost use Rattle.inp_lists.specs.Chains.{ChainForm};

use inp_lines::{Fault, Line};
use net_types::{FaultKind, OutOfMemory, Text};
use std::alloc::Global;

/// A kind of record that is made of several lines. What is asked of a line is asked by the state of the lines of its
/// name before it.
pub trait Chain {
    type Record: Drop;

    type State: Copy + Drop;

    ghost form: { Self → ChainForm Self.Record Self.State };

    ghost is_good: { Self → Type 0 };

    /// Whether a line is of the kind.
    fn is_of(&self, line: &Line) -> bool
        ensures { result ≡ (form self.now).is_of line.now };

    /// Whether a line has too few items.
    fn is_short(&self, state: Self::State, line: &Line) -> bool
        ensures { (own : Sequence DataLine) → state ≡ (form self.now).state_of own
            → result ≡ (form self.now).is_short own line.now };

    /// How many pairs of items a line has.
    fn size(&self, state: Self::State, line: &Line) -> usize
        ensures { (own : Sequence DataLine) → state ≡ (form self.now).state_of own
            → result ≡ (form self.now).size_of own line.now };

    /// The fault of the first item at fault.
    fn item_fault(&self, state: Self::State, line: &Line) -> Option<Fault>
        requires { is_good self.now }
        ensures { (own : Sequence DataLine) → state ≡ (form self.now).state_of own
            → result ≡ (form self.now).item_fault own line.now };

    /// The state of no lines.
    fn no_lines(&self) -> Self::State
        ensures { result ≡ (form self.now).state_of [] };

    /// The record of a name without lines.
    fn new_record(&self, alloc: Global, name: &[u8]) -> Result<Self::Record, OutOfMemory>
        ensures { IfOk result (λ made. made ≡ (form self.now).record_of name.now []) };

    /// Adds a line to the record of its name, and gives the state then.
    fn add(
        &self,
        alloc: Global,
        made: &mut Self::Record,
        state: Self::State,
        line: &Line,
    ) -> Result<Self::State, OutOfMemory>
        requires { is_good self.now }
        ensures record { IfOk result (λ _. (name : Sequence ℕ) (own : Sequence DataLine)
            → made.old ≡ (form self.now).record_of name own → state ≡ (form self.now).state_of own
            → made.new ≡ (form self.now).record_of name (own ++ line.now ∷ [])) }
        ensures state { IfOk result (λ next. (own : Sequence DataLine) → state ≡ (form self.now).state_of own
            → next ≡ (form self.now).state_of (own ++ line.now ∷ [])) };
}

/// The item at a place; past the last there is the empty text.
pub fn text_at(tokens: &[Text], place: usize) -> &[u8]
    ensures { result.now ≡ token_at tokens.now place }
{
    match tokens.get(place) {
        Some(token) => token.as_slice(),
        None => &[],
    }
}

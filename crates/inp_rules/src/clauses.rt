// The clauses of a rule.
ghost use Rattle.std.specs.Prelude.{◌≡◌};
ghost use Rattle.inp_rules.specs.RuleWords.{clause_of};

use inp_values::is_word;

/// A clause of a control rule (User's Manual, section [CONTROLS]).
#[derive(Clone, Copy, Debug, PartialEq, Eq)]
pub enum Clause {
    Rule,
    If,
    And,
    Or,
    Then,
    Else,
    Priority,
}

/// The clause that a line is by its first word, in any case of letters; another word is none.
pub fn clause_in(word: &[u8]) -> Option<Clause>
    ensures { result ≡ clause_of word.now }
{
    if is_word(word, b"RULE") {
        Some(Clause::Rule)
    } else if is_word(word, b"IF") {
        Some(Clause::If)
    } else if is_word(word, b"AND") {
        Some(Clause::And)
    } else if is_word(word, b"OR") {
        Some(Clause::Or)
    } else if is_word(word, b"THEN") {
        Some(Clause::Then)
    } else if is_word(word, b"ELSE") {
        Some(Clause::Else)
    } else if is_word(word, b"PRIORITY") {
        Some(Clause::Priority)
    } else {
        None
    }
}

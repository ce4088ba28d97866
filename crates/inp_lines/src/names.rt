// Names and their numbers.
ghost use Rattle.std.specs.Prelude.{◌≡◌, [], IfOk};
ghost use Rattle.inp_lines.specs.Names.{Defines, StandsTo, is_below, naming_among, naming_by, number_in, with_first};
ghost use Rattle.inp_lines.specs.Numbers.{numbers_of};

use fixed_num::RECORD_LIMIT;
use net_types::OutOfMemory;
use std::alloc::Global;
use std::collections::BTreeMap;

/// How the name that a line gives stands to the names before it.
#[derive(Clone, Copy, Debug, PartialEq, Eq)]
pub enum Naming {
    /// The line defines a new name.
    First,
    /// The name was defined by a line before.
    Repeated,
    /// The name is new, and there are as many names as may be.
    OverLimit,
}

/// The numbers of the names of one kind, from 0 in the order in which they are defined. The names are lent by
/// the lines.
pub type Names<'a> = BTreeMap<&'a [u8], u32>;

/// No names.
pub fn no_names<'a>(alloc: Global) -> Names<'a>
    ensures { numbers_of result ≡ number_in [] }
{
    BTreeMap::new(alloc)
}

/// The number of a name, if it is defined.
pub fn number_of<'a>(names: &Names<'a>, name: &'a [u8]) -> Option<u32>
    ensures { result ≡ numbers_of names.now name.now }
{
    names.get(&name).copied()
}

/// Defines a name after `count` others, if it is new and there is room; gives the count of the names then.
pub fn add_first<'a>(names: &mut Names<'a>, name: &'a [u8], count: u32) -> Result<u32, OutOfMemory>
    ensures { IfOk result (λ more. Defines (numbers_of names.old) (numbers_of names.new) count more
        (λ held. with_first held name.now)) }
{
    if names.contains_key(&name) {
        return Ok(count);
    }
    if count >= RECORD_LIMIT {
        return Ok(count);
    }
    names.insert(name, count)?;
    Ok(count + 1)
}

/// Whether a name is one of the first `count` names.
fn is_known<'a>(names: &Names<'a>, name: &'a [u8], count: u32) -> bool
    ensures { result ≡ is_below (numbers_of names.now name.now) count }
{
    match number_of(names, name) {
        Some(number) => number < count,
        None => false,
    }
}

/// How a name stands, once it is looked up.
fn naming_with(known: bool, count: u32) -> Naming
    ensures { result ≡ naming_by known count }
{
    if known {
        return Naming::Repeated;
    }
    if count >= RECORD_LIMIT {
        return Naming::OverLimit;
    }
    Naming::First
}

/// How a name stands to the first `count` names, those that the lines before it define.
pub fn naming_at<'a>(names: &Names<'a>, name: &'a [u8], count: u32) -> Naming
    ensures { StandsTo (numbers_of names.now) count result (λ held. naming_among held name.now) }
{
    naming_with(is_known(names, name, count), count)
}

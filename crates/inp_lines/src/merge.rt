// Two lists of faults as one, in the order of lines.
ghost use Rattle.std.specs.Prelude.{◌≡◌, ◌∷◌, [], IfOk, OnOk, MatchOption};
ghost use Rattle.inp_lines.specs.Faults.{cut};
ghost use Rattle.inp_lines.specs.Merge.{merged};

use net_types::{LineFault, List, OutOfMemory, Text};
use std::alloc::Global;

/// Merges the faults of other lines into a list: both lists and the result are in the order of lines, and the first
/// hundred are kept. Of faults of one line those that were in the list come first.
pub fn merge_faults(
    alloc: Global,
    faults: &mut List<LineFault>,
    others: &List<LineFault>,
) -> Result<(), OutOfMemory>
    ensures { OnOk result (faults.new ≡ cut (merged faults.old others.now)) }
{
    *faults = merged_list(alloc, faults.as_slice(), others.as_slice())?;
    Ok(())
}

/// The first hundred faults of two lists.
fn merged_list(
    alloc: Global,
    left: &[LineFault],
    right: &[LineFault],
) -> Result<List<LineFault>, OutOfMemory>
    ensures { IfOk result (λ both. both ≡ cut (merged left.now right.now)) }
{
    let mut both = List::new(alloc);
    let mut xs = left;
    let mut ys = right;
    for _ in 0..100usize {
        let Some((fault, more, rest)) = next_fault(xs, ys) else {
            return Ok(both);
        };
        both.push(copy_fault(alloc, fault)?)?;
        xs = more;
        ys = rest;
    }
    Ok(both)
}

/// The fault that comes first, and what is left of both lists.
fn next_fault<'a>(
    xs: &'a [LineFault],
    ys: &'a [LineFault],
) -> Option<(&'a LineFault, &'a [LineFault], &'a [LineFault])>
    ensures { MatchOption result (merged xs.now ys.now ≡ [])
        (λ found. merged xs.now ys.now ≡ found.0.now ∷ merged found.1.now found.2.now) }
{
    match xs {
        [] => match ys {
            [] => None,
            [y, rest @ ..] => Some((y, xs, rest)),
        },
        [x, more @ ..] => match ys {
            [] => Some((x, more, ys)),
            [y, rest @ ..] => {
                if x.line <= y.line {
                    Some((x, more, ys))
                } else {
                    Some((y, xs, rest))
                }
            }
        },
    }
}

/// A copy of a fault.
fn copy_fault(alloc: Global, fault: &LineFault) -> Result<LineFault, OutOfMemory>
    ensures { IfOk result (λ copy. copy ≡ fault.now) }
{
    Ok(LineFault {
        line: fault.line,
        number: fault.number,
        token: Text::from_slice(alloc, fault.token.as_slice())?,
    })
}

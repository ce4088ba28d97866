// The words of the machine.
ghost use Rattle.std.specs.Prelude.{◌≡◌, ◌+◌, ◌<◌, ◌≤◌, ◌^◌, pos, ◌≤ℤ◌, length, slice_set, unsigned_abs};
ghost use Rattle.fixed_num.specs.Lists.{number};
ghost use Rattle.fixed_num.specs.Ranges.{IsFlow};
ghost use Rattle.phase_machine.specs.Places.{word_count};
ghost use Rattle.phase_machine.specs.Items.{leaving, reaching, covering};
ghost use Rattle.phase_machine.specs.Steps.{added, deposited};
ghost use Rattle.phase_core.specs.Room.{HaveRoom};

use crate::places::node_place;
use net_types::List;
use phase_law::{PhaseLaw, Share};

/// The word at a place.
pub(crate) fn word_at(words: &List<i64>, place: u64) -> i64
    requires { place < length words.now }
    ensures { result ≡ number words.now place }
{
    let words = words.as_slice();
    words[place as usize]
}

/// Stores a word at a place.
pub(crate) fn store(words: &mut List<i64>, place: u64, value: i64)
    requires { place < length words.old }
    ensures { words.new ≡ slice_set words.old place value }
{
    let words = words.as_mut_slice();
    words[place as usize] = value;
}

/// Adds an amount to the word at a place.
pub(crate) fn add(words: &mut List<i64>, place: u64, amount: u64)
    requires place { place < length words.old }
    requires amount { amount ≤ 10 ^ 13 }
    requires room { number words.old place ≤ℤ pos (10 ^ 17) }
    ensures { words.new ≡ added words.old place amount }
{
    let words = words.as_mut_slice();
    words[place as usize] += amount as i64;
}

/// Adds an amount to sum s of a node: 0 inflow, 1 outflow, 2 area.
fn deposit<P: PhaseLaw>(law: &P, words: &mut List<i64>, node: u32, sum: u64, amount: u64)
    requires node { node < (P.law law.now).nodes }
    requires few { node ≤ 20_000 }
    requires sum { sum < 3 }
    requires words { length words.old ≡ word_count (P.law law.now) }
    requires room { HaveRoom (P.law law.now) words.old }
    requires amount { amount ≤ 10 ^ 13 }
    ensures { words.new ≡ deposited (P.law law.now) words.old (record { node = node; sum = sum; amount = amount }) }
{
    add(words, node_place(law, node as u64, 7 + sum), amount);
}

/// Adds a flow that leaves a node to its outflow, or to its inflow where it goes the other way.
pub(crate) fn add_leaving<P: PhaseLaw>(law: &P, words: &mut List<i64>, node: u32, share: &Share)
    requires node { node < (P.law law.now).nodes }
    requires few { node ≤ 20_000 }
    requires words { length words.old ≡ word_count (P.law law.now) }
    requires room { HaveRoom (P.law law.now) words.old }
    requires flow { IsFlow share.now.q }
    ensures { words.new ≡ deposited (P.law law.now) words.old (leaving node share.now.q) }
{
    let q = share.q;
    if q >= 0 {
        deposit(law, words, node, 1, q as u64);
    } else {
        deposit(law, words, node, 0, q.unsigned_abs());
    }
}

/// Adds a flow that reaches a node to its inflow, or to its outflow where it goes the other way.
pub(crate) fn add_reaching<P: PhaseLaw>(law: &P, words: &mut List<i64>, node: u32, share: &Share)
    requires node { node < (P.law law.now).nodes }
    requires few { node ≤ 20_000 }
    requires words { length words.old ≡ word_count (P.law law.now) }
    requires room { HaveRoom (P.law law.now) words.old }
    requires flow { IsFlow share.now.q }
    ensures { words.new ≡ deposited (P.law law.now) words.old (reaching node share.now.q) }
{
    let q = share.q;
    if q >= 0 {
        deposit(law, words, node, 0, q as u64);
    } else {
        deposit(law, words, node, 1, q.unsigned_abs());
    }
}

/// Adds an area to that of a node.
pub(crate) fn add_area<P: PhaseLaw>(law: &P, words: &mut List<i64>, node: u32, area: i64)
    requires node { node < (P.law law.now).nodes }
    requires few { node ≤ 20_000 }
    requires words { length words.old ≡ word_count (P.law law.now) }
    requires room { HaveRoom (P.law law.now) words.old }
    requires area { unsigned_abs area ≤ 10 ^ 13 }
    ensures { words.new ≡ deposited (P.law law.now) words.old (covering node area) }
{
    deposit(law, words, node, 2, area.unsigned_abs());
}

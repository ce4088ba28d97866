// The value of a list of pairs at a number.
ghost use Rattle.std.specs.Prelude.{◌≡◌, ℕ, ◌≤◌, List, length, ℤ, ◌≤ℤ◌, ◌<ℤ◌};
ghost use Rattle.net_types.specs.Ranges.{IsRising};
ghost use Rattle.rising_pairs.specs.Readings.{end_value, held_value, line_at, reading_of, IsReading};

use crate::search::first_above;
use fixed_num::lerp;

/// The value of a list at `key`: that of the pair of this key, or else the straight line between the two pairs round
/// it, rounded once; `below` before the first pair, and `beyond` after the last one.
///
/// The keys of `pairs` rise, and it has a pair. Keys and values may be any numbers. Source: this project's profile.
pub fn reading(pairs: &[(i64, i64)], key: i64, below: i64, beyond: i64) -> i64
    requires some { 1 ≤ length pairs.now }
    requires rising { IsRising pairs.now }
    ensures value { result ≡ reading_of pairs.now key below beyond }
    ensures reading { IsReading pairs.now key below beyond result }
{
    let above = first_above(pairs, key);
    if above == 0 {
        return below;
    }
    let last = pairs[above - 1];
    if above < pairs.len() {
        return line_at(last, pairs[above], key);
    }
    end_value(last, key, beyond)
}

/// The value of a list at `key`, where the first value holds before the first pair and the last one after the last
/// pair.
///
/// The keys of `pairs` rise, and it has a pair. Keys and values may be any numbers. Source: this project's profile.
pub fn held_reading(pairs: &[(i64, i64)], key: i64) -> i64
    requires some { 1 ≤ length pairs.now }
    requires rising { IsRising pairs.now }
    ensures { result ≡ held_value pairs.now key }
{
    reading(pairs, key, pairs[0].1, pairs[pairs.len() - 1].1)
}

/// Law: a rising list with a pair has one value at a number, for each pair of values outside.
pub fn reading_is_unique()
    ensures { (pairs : List (ℤ × ℤ)) (key below beyond v w : ℤ) → 1 ≤ length pairs → IsRising pairs
        → IsReading pairs key below beyond v → IsReading pairs key below beyond w → v ≡ w }
{}

// The value at `key` of the straight line from one pair to a later one.
fn line_at(from: (i64, i64), to: (i64, i64), key: i64) -> i64
    requires from { from.0 ≤ℤ key }
    requires to { key <ℤ to.0 }
    ensures { result ≡ line_at from to key }
{
    lerp(from.0, from.1, to.0, to.1, key)
}

// The value at `key` from the last pair on.
fn end_value(last: (i64, i64), key: i64, beyond: i64) -> i64
    ensures { result ≡ end_value last key beyond }
{
    if last.0 < key {
        return beyond;
    }
    last.1
}

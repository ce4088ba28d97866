// The numbers of items.
ghost use Rattle.std.specs.Prelude.{◌≡◌};
ghost use Rattle.fixed_num.specs.Decimal.{scaled_of};
ghost use Rattle.inp_values.specs.Duration.{hours_of};
ghost use Rattle.inp_values.specs.Field.{whole_of};
ghost use Rattle.inp_values.specs.Units.{unit_for};
ghost use Rattle.inp_forms.specs.Values.{amount_between, amount_from, amount_only, halves_in, halves_of};
ghost use Rattle.inp_forms.specs.Values.{metric_coefficient, weir_coefficient_of, whole_between, whole_in};

use fixed_num::{quo, scaled_decimal};
use inp_values::{Quantity, hours, unit_of, whole};
use net_types::FlowUnits;

/// The stored value of a number of a quantity.
pub(crate) fn number(units: FlowUnits, quantity: Quantity, text: &[u8]) -> Option<i64>
    ensures { result ≡ scaled_of (unit_for units quantity) text.now }
{
    scaled_decimal(text, &unit_of(units, quantity))
}

/// A value that is this one at least.
pub(crate) fn amount_from(least: i64, value: Option<i64>) -> Option<i64>
    ensures { result ≡ amount_from least value }
{
    match value {
        Some(value) if least <= value => Some(value),
        _ => None,
    }
}

/// A value that is this one.
pub(crate) fn amount_only(only: i64, value: Option<i64>) -> Option<i64>
    ensures { result ≡ amount_only only value }
{
    match value {
        Some(value) if value == only => Some(value),
        _ => None,
    }
}

/// The whole number of a text, from `least` to `most`.
pub(crate) fn whole_between(least: u32, most: u32, text: &[u8]) -> Option<i64>
    ensures { result ≡ whole_between least most text.now }
{
    whole_in(least, most, whole(text))
}

/// A whole number that lies in bounds.
fn whole_in(least: u32, most: u32, number: Option<u32>) -> Option<i64>
    ensures { result ≡ whole_in least most number }
{
    match number {
        Some(number) if least <= number && number <= most => Some(number as i64),
        _ => None,
    }
}

/// The hours of a text in ms, from `least` to `most`.
pub(crate) fn hours_between(least: i64, most: i64, text: &[u8]) -> Option<i64>
    ensures { result ≡ amount_between least most (hours_of text.now) }
{
    match hours(text) {
        Some(ms) if least <= ms && ms <= most => Some(ms),
        _ => None,
    }
}

/// The number of halves of a power.
pub(crate) fn halves(units: FlowUnits, text: &[u8]) -> Option<u32>
    ensures { result ≡ halves_of units text.now }
{
    match number(units, Quantity::Raw, text) {
        Some(power) => halves_in(power),
        None => None,
    }
}

/// The halves of a power of 0 to 3 in millionths.
#[tactic(auto, unfolding(crate::specs::Values::halves_in))]
fn halves_in(power: i64) -> Option<u32>
    ensures { result ≡ halves_in power }
{
    if power == 0 {
        return Some(0);
    }
    if power == 500_000 {
        return Some(1);
    }
    if power == 1_000_000 {
        return Some(2);
    }
    if power == 1_500_000 {
        return Some(3);
    }
    if power == 2_000_000 {
        return Some(4);
    }
    if power == 2_500_000 {
        return Some(5);
    }
    if power == 3_000_000 { Some(6) } else { None }
}

/// The metric discharge coefficient of a weir.
pub(crate) fn weir_coefficient(units: FlowUnits, text: &[u8]) -> Option<i64>
    ensures { result ≡ weir_coefficient_of units text.now }
{
    match number(units, Quantity::Coefficient, text) {
        Some(coefficient) => Some(metric_coefficient(units, coefficient)),
        None => None,
    }
}

/// A coefficient of an input as a metric one: US units have feet for metres, whose square roots differ.
#[tactic(auto, using(fixed_num::proofs::Bounds::casts), unfolding(crate::specs::Values::metric_coefficient))]
fn metric_coefficient(units: FlowUnits, coefficient: i64) -> i64
    ensures { result ≡ metric_coefficient units coefficient }
{
    match units {
        FlowUnits::Cfs | FlowUnits::Gpm | FlowUnits::Mgd => {
            quo(coefficient as i128 * 552_087, 1_000_000) as i64
        }
        FlowUnits::Cms | FlowUnits::Lps | FlowUnits::Mld => coefficient,
    }
}

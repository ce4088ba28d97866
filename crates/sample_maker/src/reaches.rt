// The reaches of a sample.
ghost use Rattle.std.specs.Prelude.{◌≡◌, ℕ, ◌+◌, ◌-◌, ◌*◌, ◌<◌, ◌≤◌, IfOk};
ghost use Rattle.sample_maker.specs.Draws.{state_after};
ghost use Rattle.sample_maker.specs.Reaches.{below_of, elevation_at, elevation_over, reach_over, reaches_of};

use crate::draws::Draws;
use net_types::{List, OutOfMemory};
use std::alloc::Global;

/// A junction and the conduit from it to the junction below, or to the outfall.
#[derive(Clone, Copy, Debug, PartialEq, Eq)]
pub(crate) struct Reach {
    pub(crate) number: u32,
    pub(crate) below: Option<u32>,
    /// In cm.
    pub(crate) elevation: u32,
    /// In m.
    pub(crate) length: u32,
    /// In cm.
    pub(crate) diameter: u32,
    /// In l/s.
    pub(crate) inflow: u32,
}

/// The reaches of the sample of a number, 400 of them.
#[tactic(auto, unfolding(crate::specs::Reaches::reaches_of))]
pub(crate) fn draw_reaches(alloc: Global, number: u32) -> Result<List<Reach>, OutOfMemory>
    ensures { IfOk result (λ reaches. reaches ≡ reaches_of number 400) }
{
    let mut draws = Draws {
        state: u64::from(number),
    };
    let mut reaches = List::new(alloc);
    for count in 0..400 {
        let reach = draw_reach(&mut draws, reaches.as_slice(), count);
        reaches.push(reach)?;
    }
    Ok(reaches)
}

// Draws a reach over those before it.
fn draw_reach(draws: &mut Draws, before: &[Reach], number: u32) -> Reach
    requires number { number < 400 }
    requires low { (k : ℕ) → elevation_at before.now k ≤ 100 + 24 * number }
    ensures reach { (seed : ℕ) → draws.old.state ≡ state_after seed (5 * number - 2)
        → result ≡ reach_over seed before.now number }
    ensures state { (seed : ℕ) → draws.old.state ≡ state_after seed (5 * number - 2)
        → draws.new.state ≡ state_after seed (5 * number + 3) }
    ensures low { result.elevation ≤ 124 + 24 * number }
{
    let place = draw_place(draws, before, number);
    Reach {
        number,
        below: place.below,
        elevation: place.elevation,
        length: 50 + draws.draw(50),
        diameter: 60 + 10 * draws.draw(5),
        inflow: 1 + draws.draw(9),
    }
}

// The junction below a junction, and the junction's elevation in cm.
#[derive(Drop)]
struct Place {
    below: Option<u32>,
    elevation: u32,
}

// Draws where a junction lies over those before it.
fn draw_place(draws: &mut Draws, before: &[Reach], number: u32) -> Place
    requires number { number < 400 }
    requires low { (k : ℕ) → elevation_at before.now k ≤ 100 + 24 * number }
    ensures below { (seed : ℕ) → draws.old.state ≡ state_after seed (5 * number - 2)
        → result.below ≡ below_of seed number }
    ensures elevation { (seed : ℕ) → draws.old.state ≡ state_after seed (5 * number - 2)
        → result.elevation ≡ elevation_over seed before.now number }
    ensures state { (seed : ℕ) → draws.old.state ≡ state_after seed (5 * number - 2)
        → draws.new.state ≡ state_after seed (5 * number) }
    ensures low { result.elevation ≤ 124 + 24 * number }
{
    if number == 0 {
        return Place {
            below: None,
            elevation: 100,
        };
    }
    let below = number - 1 - draws.draw(number.min(4));
    let rise = 5 + draws.draw(20);
    Place {
        below: Some(below),
        elevation: elevation_at(before, below) + rise,
    }
}

// The elevation in cm of the junction of a number, 0 of one that isn't there.
fn elevation_at(reaches: &[Reach], number: u32) -> u32
    ensures { result ≡ elevation_at reaches.now number }
{
    match reaches.get(number as usize) {
        Some(reach) => reach.elevation,
        None => 0,
    }
}

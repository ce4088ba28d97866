// The sums of shares at the nodes.
ghost use Rattle.std.specs.Prelude.{◌≡◌, ℕ, ◌+◌, ◌*◌, ◌^◌, ◌<◌, ◌≤◌, pos, ◌+ℤ◌, length, replicate};
ghost use Rattle.fixed_num.specs.Sums.{at};
ghost use Rattle.phase_law.specs.Ranges.{ShareInRange};
ghost use Rattle.fixed_num.specs.Lists.{number};
ghost use Rattle.trial_model.specs.Flow.{forward, backward};
ghost use Rattle.trial_model.specs.Parts.{both_ends, in_part, out_part, area_part, HasRoom};

use net_types::List;
use phase_law::Share;

/// The two directions of a flow: what goes forward, and what goes backward.
pub(crate) fn split_flow(q: i64) -> (u64, u64)
    ensures forward { result.0 ≡ forward q }
    ensures backward { result.1 ≡ backward q }
{
    if q >= 0 {
        (q as u64, 0)
    } else {
        (0, q.unsigned_abs())
    }
}

/// Adds an amount at one place.
fn add_at(list: &mut [i64], place: u32, amount: u64)
    requires place { place < length list.old }
    requires amount { amount ≤ 10 ^ 13 }
    requires room { HasRoom list.old (2 * 10 ^ 18) }
    ensures { (n : ℕ) → number list.new n ≡ number list.old n +ℤ pos (at place amount n) }
{
    list[place as usize] += amount as i64;
}

/// Adds an amount at each end of a link.
pub(crate) fn add_pair(list: &mut [i64], near: u32, far: u32, at_near: u64, at_far: u64)
    requires near { near < length list.old }
    requires far { far < length list.old }
    requires at_near { at_near ≤ 10 ^ 13 }
    requires at_far { at_far ≤ 10 ^ 13 }
    requires room { HasRoom list.old (10 ^ 18) }
    ensures { (n : ℕ) → number list.new n ≡ number list.old n +ℤ pos (both_ends (near, far) at_near at_far n) }
{
    add_at(list, near, at_near);
    add_at(list, far, at_far);
}

/// Adds a link's share to the sums of its two ends.
pub(crate) fn add_share(
    near: u32,
    far: u32,
    share: &Share,
    inflows: &mut [i64],
    outflows: &mut [i64],
    areas: &mut [i64],
)
    requires near_in { near < length inflows.old }
    requires near_out { near < length outflows.old }
    requires near_area { near < length areas.old }
    requires far_in { far < length inflows.old }
    requires far_out { far < length outflows.old }
    requires far_area { far < length areas.old }
    requires share { ShareInRange share.now }
    requires inflows { HasRoom inflows.old (10 ^ 18) }
    requires outflows { HasRoom outflows.old (10 ^ 18) }
    requires areas { HasRoom areas.old (10 ^ 18) }
    ensures inflows { (n : ℕ) → number inflows.new n ≡ number inflows.old n +ℤ pos (in_part (near, far) share.now n) }
    ensures outflows { (n : ℕ)
        → number outflows.new n ≡ number outflows.old n +ℤ pos (out_part (near, far) share.now n) }
    ensures areas { (n : ℕ) → number areas.new n ≡ number areas.old n +ℤ pos (area_part (near, far) share.now n) }
{
    let (forward, backward) = split_flow(share.q);
    add_pair(inflows, near, far, backward, forward);
    add_pair(outflows, near, far, forward, backward);
    add_pair(
        areas,
        near,
        far,
        share.area1.unsigned_abs(),
        share.area2.unsigned_abs(),
    );
}

/// Sets all numbers of a list to 0.
pub(crate) fn clear(list: &mut List<i64>)
    ensures { list.new ≡ replicate (length list.old) (pos 0) }
{
    list.as_mut_slice().fill(0);
}

/// Copies all numbers of a list over another of the same length.
pub(crate) fn copy(from: &List<i64>, to: &mut List<i64>)
    requires { length to.old ≡ length from.now }
    ensures { to.new ≡ from.now }
{
    to.as_mut_slice().copy_from_slice(from.as_slice());
}

// The own area and the volume of a junction, which may pond.
ghost use Rattle.std.specs.Prelude.{◌≡◌, ◌*◌, ◌^◌, ◌&&◌, pos, ◌+ℤ◌, ◌-ℤ◌, int_le, int_lt};
ghost use Rattle.fixed_num.specs.Ranges.{IsBetween, IsFall, IsHead, IsNodeArea, IsWithin};
ghost use Rattle.node_update.specs.NodeLaws.{IsNodeLaw};
ghost use Rattle.node_update.specs.NodeUpdate.{full_level_of, junction_area_of, junction_volume_of};
ghost use Rattle.storage_shapes.specs.StoreTable.{prism_of};

use crate::node_law::NodeLaw;
use fixed_num::quo;

impl NodeLaw {
    // The head at which the node is full, in µm.
    fn full_level(&self) -> i64
        requires { IsNodeLaw self.now }
        ensures value { result ≡ full_level_of self.now }
        ensures range { IsWithin (12 * 10 ^ 9) result }
    {
        self.invert + self.full
    }

    // Whether a junction ponds over `pond` mm², which is 0 for none, at this head.
    fn ponds_at(&self, pond: i64, head: i64) -> bool
        requires { IsNodeLaw self.now }
        ensures { result ≡ (int_lt (pos 0) pond && int_le (full_level_of self.now) head) }
    {
        both(pond > 0, self.full_level() <= head)
    }

    // Whether it ponds below this head.
    fn ponds_below(&self, pond: i64, head: i64) -> bool
        requires { IsNodeLaw self.now }
        ensures { result ≡ (int_lt (pos 0) pond && int_lt (full_level_of self.now) head) }
    {
        both(pond > 0, self.full_level() < head)
    }

    // The own area, in mm², of a junction that ponds over `pond` mm².
    pub(crate) fn junction_area(&self, pond: i64, last: i64) -> i64
        requires law { IsNodeLaw self.now }
        requires pond { IsNodeArea pond }
        requires last { IsHead last }
        ensures value { result ≡ junction_area_of self.now pond last }
        ensures range { IsBetween (pos 1) result (pos (10 ^ 13)) }
    {
        if self.ponds_at(pond, last) {
            return pond;
        }
        self.min_area
    }

    // The volume of such a junction at a head, in mm³.
    pub(crate) fn junction_volume(&self, pond: i64, head: i64) -> i128
        requires law { IsNodeLaw self.now }
        requires pond { IsNodeArea pond }
        requires head { IsHead head }
        ensures value { result ≡ junction_volume_of self.now pond head }
        ensures range { IsWithin (10 ^ 21) result }
    {
        if self.ponds_below(pond, head) {
            return self.ponded_volume(pond, head);
        }
        prism(self.min_area, head - self.invert)
    }

    // The volume of a junction that ponds below this head.
    fn ponded_volume(&self, pond: i64, head: i64) -> i128
        requires law { IsNodeLaw self.now }
        requires pond { IsNodeArea pond }
        requires head { IsHead head }
        ensures value { result ≡ prism_of self.now.min_area self.now.full
            +ℤ prism_of pond (head -ℤ full_level_of self.now) }
        ensures range { IsWithin (8 * 10 ^ 20) result }
    {
        prism(self.min_area, self.full) + prism(pond, head - self.full_level())
    }
}

fn both(first: bool, second: bool) -> bool
    ensures { result ≡ (first && second) }
{
    if first {
        return second;
    }
    false
}

// The volume of a prism of this area in mm² and this height in µm, in mm³.
#[tactic(auto, using(fixed_num::proofs::Bounds::casts), unfolding(storage_shapes::specs::StoreTable::prism_of))]
fn prism(area: i64, height: i64) -> i128
    requires area { IsNodeArea area }
    requires height { IsFall height }
    ensures value { result ≡ prism_of area height }
    ensures range { IsWithin (4 * 10 ^ 20) result }
{
    quo(area as i128 * height as i128, 1_000)
}

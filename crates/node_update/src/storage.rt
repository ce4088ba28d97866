// The own area and the volume of a storage, by its table.
ghost use Rattle.std.specs.Prelude.{◌≡◌, ◌^◌, pos};
ghost use Rattle.fixed_num.specs.Ranges.{IsBetween, IsHead, IsWithin};
ghost use Rattle.node_update.specs.NodeLaws.{IsNodeLaw};
ghost use Rattle.node_update.specs.NodeUpdate.{storage_area_of};
ghost use Rattle.storage_shapes.specs.StoreTable.{IsStoreTable, stored_volume_of};
ghost use Rattle.std.specs.Prelude.{◌-ℤ◌};

use crate::node_law::NodeLaw;
use storage_shapes::StoreTable;

impl NodeLaw {
    // The own area of a storage of this table at the last head, in mm².
    pub(crate) fn storage_area(&self, table: &StoreTable, last: i64) -> i64
        requires law { IsNodeLaw self.now }
        requires table { IsStoreTable table.now }
        requires last { IsHead last }
        ensures value { result ≡ storage_area_of self.now table.now last }
        ensures range { IsBetween (pos 1) result (pos (10 ^ 13)) }
    {
        self.min_area.max(table.area(last - self.invert))
    }

    // The volume of such a storage at a head, in mm³.
    pub(crate) fn storage_volume(&self, table: &StoreTable, head: i64) -> i128
        requires law { IsNodeLaw self.now }
        requires table { IsStoreTable table.now }
        requires head { IsHead head }
        ensures value { result ≡ stored_volume_of table.now (head -ℤ self.now.invert) }
        ensures range { IsWithin (10 ^ 21) result }
    {
        table.volume(head - self.invert)
    }
}

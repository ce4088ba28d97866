// The law of an orifice.
ghost use Rattle.std.specs.Prelude.{◌≡◌, ◌^◌, pos};
ghost use Rattle.fixed_num.specs.Ranges.{IsBetween, IsFlow, IsHead, IsPart};
ghost use Rattle.link_eval.specs.Ends.{AreLinkEnds};
ghost use Rattle.link_eval.specs.Orifices.{IsOrificeLaw, open_area_of, orifice_law_of, orifice_share_of, orifice_with};
ghost use Rattle.net_types.specs.Ranges.{OrificeInRange, SectionInRange};
ghost use Rattle.orifice_weir.specs.OrificeFlow.{IsOrifice};
ghost use Rattle.phase_law.specs.Ranges.{LinkFixedInRange};

use crate::ends::LinkEnds;
use net_types::Section;
use orifice_weir::{OrificeData, orifice_depth, orifice_flow};
use phase_law::{LinkFixed, Share};
use short_links::{ShortLink, short_share};
use xsect_tables::Table;

/// What the share of an orifice depends on: what bars it, its opening, and the table of its section or its number.
#[derive(Debug, Drop)]
pub struct OrificeLaw<T> {
    pub ends: ShortLink,
    pub orifice: OrificeData,
    pub table: T,
}

// The law of an orifice with this section, whose table has this number.
pub(crate) fn orifice_law(
    bottom: bool,
    offset: i64,
    cd6: i64,
    flap: bool,
    section: &Section,
    table: usize,
    ends: &LinkEnds,
) -> OrificeLaw<usize>
    requires range { OrificeInRange offset cd6 }
    requires given { SectionInRange section.now }
    requires ends { AreLinkEnds ends.now }
    ensures value { result ≡ orifice_law_of bottom offset cd6 flap section.now table ends.now }
    ensures good { IsOrifice result.orifice }
{
    OrificeLaw {
        ends: ends.short_link(flap),
        orifice: OrificeData {
            bottom,
            sill: ends.invert1 + offset,
            full: section.full,
            cd6,
        },
        table,
    }
}

// The area of its opening up to the depth to which it is filled, in mm².
fn open_area(law: &OrificeLaw<usize>, table: &Table, setting: i64, near: i64, far: i64) -> i64
    requires law { IsOrificeLaw (orifice_with table.now law.now) }
    requires setting { IsPart setting }
    requires near { IsHead near }
    requires far { IsHead far }
    ensures value { result ≡ open_area_of (orifice_with table.now law.now) setting near far }
    ensures range { IsBetween (pos 0) result (pos (10 ^ 11)) }
{
    let depth = orifice_depth(&law.orifice, setting, near, far);
    table.area(depth)
}

// The share of an orifice with this table in a trial.
pub(crate) fn orifice_share(
    law: &OrificeLaw<usize>,
    table: &Table,
    fixed: &LinkFixed,
    first: bool,
    near: i64,
    far: i64,
    last: i64,
) -> Share
    requires law { IsOrificeLaw (orifice_with table.now law.now) }
    requires fixed { LinkFixedInRange fixed.now }
    requires near { IsHead near }
    requires far { IsHead far }
    requires last { IsFlow last }
    ensures { result ≡ orifice_share_of (orifice_with table.now law.now) fixed.now first near far last }
{
    let area = open_area(law, table, fixed.setting, near, far);
    let driven = orifice_flow(&law.orifice, fixed.setting, near, far, area);
    short_share(&law.ends, first, near, far, last, driven)
}

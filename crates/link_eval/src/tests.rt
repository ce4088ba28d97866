// Shares of links without length, and tables that links share.
ghost use Rattle.std.specs.Prelude.{pos};
ghost use Rattle.fixed_num.specs.Ranges.{IsFullHeight};
ghost use Rattle.net_types.specs.Ranges.{SectionInRange};
ghost use Rattle.link_eval.specs.Weirs.{IsWeirLaw};

use crate::tables::TableStock;
use crate::weir::{WeirLaw, weir_share};
use net_types::{OutOfMemory, Section, Shape};
use orifice_weir::WeirData;
use phase_law::LinkFixed;
use short_links::ShortLink;

// A weir of a metre with its crest at 0, between inverts at 0, that lets nothing run back.
fn weir() -> WeirLaw
    ensures { IsWeirLaw result }
{
    WeirLaw {
        ends: ShortLink {
            flap: true,
            invert1: 0,
            invert2: 0,
        },
        weir: WeirData {
            notch: false,
            crest: 0,
            full: 1_000_000,
            width: 1_000_000,
            c6: 1_840_000,
            contractions: 0,
        },
    }
}

#[test]
fn a_weir_goes_by_its_setting_and_its_gate(rt: HostRuntime) {
    let law = weir();
    let open = LinkFixed {
        q_old: 0,
        a_old: 0,
        setting: 1_000_000,
        dt: 10_000,
    };
    let shut = LinkFixed {
        q_old: 0,
        a_old: 0,
        setting: 0,
        dt: 10_000,
    };
    let full = weir_share(&law, &open, true, 250_000, 0, 0);
    assert_eq!(rt; (full.q, full.area1, full.time), (230_000, 0, 3_600_000));
    assert_eq!(rt;
        weir_share(&law, &open, false, 250_000, 0, 200_000).q,
        215_000
    );
    assert_eq!(rt; weir_share(&law, &open, true, 0, 250_000, 0).q, 0);
    assert_eq!(rt; weir_share(&law, &shut, true, 250_000, 0, 0).q, 0);
}

// A circular section of a full height.
fn pipe(full: i64) -> Section
    requires { IsFullHeight full }
    ensures { SectionInRange result }
{
    Section {
        shape: Shape::Circular,
        full,
        barrels: 1,
    }
}

#[test]
fn equal_sections_have_one_table(rt: HostRuntime) -> Result<(), OutOfMemory> {
    let mut stock = TableStock::new(rt.alloc());
    let first = stock.number_of(&pipe(1_000_000))?;
    let other = stock.number_of(&pipe(2_000_000))?;
    let again = stock.number_of(&pipe(1_000_000))?;
    assert_eq!(rt; (first, other, again), (0, 1, 0));
    assert_eq!(rt; stock.tables.as_slice().len(), 2);
    Ok(())
}

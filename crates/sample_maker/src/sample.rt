// The text of a sample.
ghost use Rattle.std.specs.Prelude.{◌≡◌, ◌++◌, IfOk, OnOk, string_bytes};
ghost use Rattle.std.specs.List.{flat_map};
ghost use Rattle.sample_maker.specs.SampleText.{conduit_line, inflow_line, junction_line, sample_text, sections_of};
ghost use Rattle.sample_maker.specs.SampleText.{xsection_line};

use crate::lines::{put_conduit, put_inflow, put_junction, put_xsection};
use crate::reaches::{Reach, draw_reaches};
use net_types::{OutOfMemory, Text};
use std::alloc::{AllocError, Global};

const HEAD: &str = "[OPTIONS]\n\
    FLOW_UNITS CMS\n\
    START_DATE 01/01/2024\n\
    END_DATE 01/01/2024\n\
    END_TIME 00:10:00\n\
    ROUTING_STEP 5\n\
    REPORT_STEP 00:01:00\n\
    [JUNCTIONS]\n";

/// The sample input of a number: 400 circular conduits that drain to one outfall for ten minutes, with an inflow
/// at each junction. The only error is want of memory.
///
/// Source: this project's profile.
#[tactic(auto, unfolding(crate::specs::SampleText::sample_text))]
pub fn sample_text(alloc: Global, number: u32) -> Result<Text, OutOfMemory>
    ensures { IfOk result (λ text. text ≡ sample_text number) }
{
    let reaches = draw_reaches(alloc, number)?;
    let text = sections_of(alloc, reaches.as_slice())?;
    Text::from_slice(alloc, text.as_bytes())
}

fn sections_of(alloc: Global, reaches: &[Reach]) -> Result<String, AllocError>
    ensures { IfOk result (λ text. string_bytes text ≡ sections_of reaches.now) }
{
    let mut text = String::new(alloc);
    text.push_str(HEAD)?;
    put_junctions(&mut text, reaches)?;
    text.push_str("[OUTFALLS]\nO 0.50 FIXED 0.80 NO\n[CONDUITS]\n")?;
    put_conduits(&mut text, reaches)?;
    text.push_str("[XSECTIONS]\n")?;
    put_xsections(&mut text, reaches)?;
    text.push_str("[INFLOWS]\n")?;
    put_inflows(&mut text, reaches)?;
    Ok(text)
}

fn put_junctions(text: &mut String, reaches: &[Reach]) -> Result<(), AllocError>
    ensures { OnOk result (string_bytes text.new ≡ string_bytes text.old ++ flat_map junction_line reaches.now) }
{
    for reach in reaches {
        put_junction(text, reach)?;
    }
    Ok(())
}

fn put_conduits(text: &mut String, reaches: &[Reach]) -> Result<(), AllocError>
    ensures { OnOk result (string_bytes text.new ≡ string_bytes text.old ++ flat_map conduit_line reaches.now) }
{
    for reach in reaches {
        put_conduit(text, reach)?;
    }
    Ok(())
}

fn put_xsections(text: &mut String, reaches: &[Reach]) -> Result<(), AllocError>
    ensures { OnOk result (string_bytes text.new ≡ string_bytes text.old ++ flat_map xsection_line reaches.now) }
{
    for reach in reaches {
        put_xsection(text, reach)?;
    }
    Ok(())
}

fn put_inflows(text: &mut String, reaches: &[Reach]) -> Result<(), AllocError>
    ensures { OnOk result (string_bytes text.new ≡ string_bytes text.old ++ flat_map inflow_line reaches.now) }
{
    for reach in reaches {
        put_inflow(text, reach)?;
    }
    Ok(())
}

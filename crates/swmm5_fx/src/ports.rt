// The ports of a command over the files that its words name.
ghost use Rattle.std.specs.Prelude.{◌≡◌, false, IfOk};
ghost use Rattle.command_words.specs.CommandWords.{command_of};
ghost use Rattle.swmm5_fx.specs.Ports.{name_or_none, unopened};
ghost use Rattle.swmm_top.specs.Answers.{HasCauses};
ghost use Rattle.swmm_top.specs.Uses.{keeps_hotstart, reads_hotstart, reads_input};

use fault_ports::{FileSink, FileSource, OpenGate};
use net_types::{List, OutOfMemory, Text};
use std::alloc::Global;
use std::rt::Files;
use std::sync::Wait;
use std::thread::Threads;
use swmm_top::{FileNames, Status, TopFault, swmm_top};

/// The four ports of a command over files.
#[derive(Drop)]
pub(crate) struct Ports<'a, R: Files> {
    inp: FileSource<'a, R>,
    hot_in: FileSource<'a, R>,
    rpt: FileSink<'a, R>,
    hot_out: FileSink<'a, R>,
}

/// The ports over the files of these names. It opens none.
pub(crate) fn ports_over<'a, R: AllocGlobal + Files>(
    rt: &'a R,
    names: FileNames,
) -> Result<Ports<'a, R>, OutOfMemory>
    ensures inp { IfOk result (λ ports. ports.inp ≡ unopened (name_or_none names.inp)) }
    ensures hot_in { IfOk result (λ ports. ports.hot_in ≡ unopened (name_or_none names.hot_in)) }
    ensures rpt { IfOk result (λ ports. ports.rpt ≡ unopened names.rpt) }
    ensures hot_out { IfOk result (λ ports. ports.hot_out ≡ unopened (name_or_none names.hot_out)) }
{
    let inp = name_in(rt.alloc(), names.inp)?;
    let hot_in = name_in(rt.alloc(), names.hot_in)?;
    let hot_out = name_in(rt.alloc(), names.hot_out)?;
    Ok(Ports {
        inp: FileSource::new(rt, inp),
        hot_in: FileSource::new(rt, hot_in),
        rpt: FileSink::new(rt, names.rpt),
        hot_out: FileSink::new(rt, hot_out),
    })
}

// The name of a file, which is empty for a port that has none and is never called.
fn name_in(alloc: Global, name: Option<Text>) -> Result<Text, OutOfMemory>
    ensures { IfOk result (λ text. text ≡ name_or_none name) }
{
    match name {
        Some(name) => Ok(name),
        None => Text::from_slice(alloc, b""),
    }
}

/// Does the command of these words over these ports.
pub(crate) fn command_over<R: AllocGlobal + Files + Threads + Wait + Sync>(
    rt: &R,
    words: &List<Text>,
    ports: &mut Ports<'_, R>,
) -> Result<Status, TopFault>
    ensures causes { HasCauses ports.old.inp.faults ports.new.inp.faults ports.old.hot_in.faults ports.new.hot_in.faults
        ports.old.rpt.faults ports.new.rpt.faults ports.old.hot_out.faults ports.new.hot_out.faults result }
    ensures input_unused { reads_input (command_of words.now) ≡ false → ports.new.inp ≡ ports.old.inp }
    ensures hotstart_unused { reads_hotstart (command_of words.now) ≡ false → ports.new.hot_in ≡ ports.old.hot_in }
    ensures hotstart_unkept { keeps_hotstart (command_of words.now) ≡ false → ports.new.hot_out ≡ ports.old.hot_out }
{
    swmm_top(
        rt,
        rt.alloc(),
        words,
        &mut ports.inp,
        &mut ports.hot_in,
        &mut ports.rpt,
        &mut ports.hot_out,
        &OpenGate,
    )
}

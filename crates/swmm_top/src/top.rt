// The commands.
ghost use Rattle.std.specs.Prelude.{◌≡◌, ◌⊎◌, None, Ok, true, false, IsErrOf};
ghost use Rattle.command_words.specs.CommandWords.{command_of};
ghost use Rattle.fault_ports.specs.Causes.{no_faults};
ghost use Rattle.swmm_top.specs.Complete.{Completes, SomeFailed};
ghost use Rattle.swmm_top.specs.Answers.{BeforeWriting, GivesOutcome, HasCauses, ReadsHotstart, ReadsInput};
ghost use Rattle.swmm_top.specs.Uses.{check_only, keeps_hotstart, reads_hotstart, reads_input, run_only};

use crate::fault::{Port, TopFault};
use crate::status::Status;
use crate::task::{check_input, do_work};
use crate::work::{read_check, read_run, read_work};
use fault_ports::{Gate, Sink, Source};
use net_types::{List, OutOfMemory, Text};
use std::alloc::Global;
use std::sync::Wait;
use std::thread::Threads;

/// Makes the run of a `run` or `demo` command with one worker, and always returns. Other words are `Usage`.
pub fn run_alone_top<S: Source, H: Source, W: Sink, K: Sink>(
    alloc: Global,
    words: &List<Text>,
    inp: &mut S,
    hot_in: &mut H,
    rpt: &mut W,
    hot_out: &mut K,
) -> Result<Status, TopFault>
    // What it gives: the headline.
    ensures outcome { GivesOutcome (run_only (command_of words.now))
        (S.left inp.old) (H.left hot_in.old) (W.held rpt.old) (W.held rpt.new)
        (K.held hot_out.old) (K.held hot_out.new) result }
    ensures usage { result ≡ Ok Status.Usage → run_only (command_of words.now) ≡ None }
    ensures no_command { run_only (command_of words.now) ≡ None
        → (result ≡ Ok Status.Usage) ⊎ IsErrOf result TopFault.OutOfMemory }
    ensures complete { Completes (run_only (command_of words.now))
        (S.left inp.old) (H.left hot_in.old) (W.held rpt.old) (W.held rpt.new)
        (K.held hot_out.old) (K.held hot_out.new)
        (SomeFailed (S.faults inp.old) (S.faults inp.new) (H.faults hot_in.old) (H.faults hot_in.new)
        (W.faults rpt.old) (W.faults rpt.new) (K.faults hot_out.old) (K.faults hot_out.new)) result }

    // A fault has its cause in the port's count.
    ensures causes { HasCauses (S.faults inp.old) (S.faults inp.new) (H.faults hot_in.old) (H.faults hot_in.new)
        (W.faults rpt.old) (W.faults rpt.new) (K.faults hot_out.old) (K.faults hot_out.new) result }

    // What was read, and what a fault leaves.
    ensures input_to_end { reads_input (run_only (command_of words.now)) ≡ true
        → ReadsInput (S.left inp.old) (S.left inp.new) result }
    ensures hotstart_to_end { reads_hotstart (run_only (command_of words.now)) ≡ true
        → ReadsHotstart (H.left hot_in.old) (H.left hot_in.new) result }
    ensures unwritten { BeforeWriting result ((rpt.new ≡ rpt.old) × (hot_out.new ≡ hot_out.old)) }
    ensures hotstart_after { IsErrOf result (TopFault.Write Port.Rpt) → hot_out.new ≡ hot_out.old }

    // Ports that aren't used.
    ensures input_unused { reads_input (run_only (command_of words.now)) ≡ false → inp.new ≡ inp.old }
    ensures hotstart_unused { reads_hotstart (run_only (command_of words.now)) ≡ false → hot_in.new ≡ hot_in.old }
    ensures hotstart_unkept { keeps_hotstart (run_only (command_of words.now)) ≡ false → hot_out.new ≡ hot_out.old }
    ensures report_unused { run_only (command_of words.now) ≡ None → rpt.new ≡ rpt.old }
{
    match read_run(alloc, words) {
        Ok(Some(work)) => do_work(alloc, work, inp, hot_in, rpt, hot_out),
        Ok(None) => Ok(Status::Usage),
        Err(OutOfMemory) => Err(TopFault::OutOfMemory),
    }
}

/// Checks the input of a `check` command, and always returns. Other words are `Usage`.
pub fn check_top<S: Source, W: Sink>(
    alloc: Global,
    words: &List<Text>,
    inp: &mut S,
    rpt: &mut W,
) -> Result<Status, TopFault>
    // What it gives: the headline. There is no hotstart to read or to write.
    ensures outcome { GivesOutcome (check_only (command_of words.now))
        (S.left inp.old) None (W.held rpt.old) (W.held rpt.new) None None result }
    ensures usage { result ≡ Ok Status.Usage → check_only (command_of words.now) ≡ None }
    ensures no_command { check_only (command_of words.now) ≡ None
        → (result ≡ Ok Status.Usage) ⊎ IsErrOf result TopFault.OutOfMemory }
    ensures complete { Completes (check_only (command_of words.now))
        (S.left inp.old) None (W.held rpt.old) (W.held rpt.new) None None
        (SomeFailed (S.faults inp.old) (S.faults inp.new) no_faults no_faults
        (W.faults rpt.old) (W.faults rpt.new) no_faults no_faults) result }

    // A fault has its cause in the port's count.
    ensures causes { HasCauses (S.faults inp.old) (S.faults inp.new) no_faults no_faults
        (W.faults rpt.old) (W.faults rpt.new) no_faults no_faults result }

    // What was read, and what a fault leaves.
    ensures input_to_end { reads_input (check_only (command_of words.now)) ≡ true
        → ReadsInput (S.left inp.old) (S.left inp.new) result }
    ensures unwritten { BeforeWriting result (rpt.new ≡ rpt.old) }

    // Ports that aren't used.
    ensures unused { check_only (command_of words.now) ≡ None → (inp.new ≡ inp.old) × (rpt.new ≡ rpt.old) }
{
    match read_check(alloc, words) {
        Ok(Some(_)) => check_input(alloc, inp, rpt),
        Ok(None) => Ok(Status::Usage),
        Err(OutOfMemory) => Err(TopFault::OutOfMemory),
    }
}

/// Does a command. It may wait for its workers, so it promises its return for no command.
pub fn swmm_top<R: Threads + Wait + Sync, S: Source, H: Source, W: Sink, K: Sink, G: Gate + Sync>(
    _rt: &R,
    alloc: Global,
    words: &List<Text>,
    inp: &mut S,
    hot_in: &mut H,
    rpt: &mut W,
    hot_out: &mut K,
    _gate: &G,
) -> Result<Status, TopFault>
    // What it gives: the headline.
    ensures outcome { GivesOutcome (command_of words.now)
        (S.left inp.old) (H.left hot_in.old) (W.held rpt.old) (W.held rpt.new)
        (K.held hot_out.old) (K.held hot_out.new) result }
    ensures usage { result ≡ Ok Status.Usage → command_of words.now ≡ None }
    ensures no_command { command_of words.now ≡ None
        → (result ≡ Ok Status.Usage) ⊎ IsErrOf result TopFault.OutOfMemory }
    ensures complete { Completes (command_of words.now)
        (S.left inp.old) (H.left hot_in.old) (W.held rpt.old) (W.held rpt.new)
        (K.held hot_out.old) (K.held hot_out.new)
        (SomeFailed (S.faults inp.old) (S.faults inp.new) (H.faults hot_in.old) (H.faults hot_in.new)
        (W.faults rpt.old) (W.faults rpt.new) (K.faults hot_out.old) (K.faults hot_out.new)) result }

    // A fault has its cause in the port's count.
    ensures causes { HasCauses (S.faults inp.old) (S.faults inp.new) (H.faults hot_in.old) (H.faults hot_in.new)
        (W.faults rpt.old) (W.faults rpt.new) (K.faults hot_out.old) (K.faults hot_out.new) result }

    // What was read, and what a fault leaves.
    ensures input_to_end { reads_input (command_of words.now) ≡ true
        → ReadsInput (S.left inp.old) (S.left inp.new) result }
    ensures hotstart_to_end { reads_hotstart (command_of words.now) ≡ true
        → ReadsHotstart (H.left hot_in.old) (H.left hot_in.new) result }
    ensures unwritten { BeforeWriting result ((rpt.new ≡ rpt.old) × (hot_out.new ≡ hot_out.old)) }
    ensures hotstart_after { IsErrOf result (TopFault.Write Port.Rpt) → hot_out.new ≡ hot_out.old }

    // Ports that aren't used.
    ensures input_unused { reads_input (command_of words.now) ≡ false → inp.new ≡ inp.old }
    ensures hotstart_unused { reads_hotstart (command_of words.now) ≡ false → hot_in.new ≡ hot_in.old }
    ensures hotstart_unkept { keeps_hotstart (command_of words.now) ≡ false → hot_out.new ≡ hot_out.old }
    ensures report_unused { command_of words.now ≡ None → rpt.new ≡ rpt.old }
{
    match read_work(alloc, words) {
        Ok(Some(work)) => do_work(alloc, work, inp, hot_in, rpt, hot_out),
        Ok(None) => Ok(Status::Usage),
        Err(OutOfMemory) => Err(TopFault::OutOfMemory),
    }
}

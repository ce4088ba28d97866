// A command of the program.
use net_types::Text;

/// A command of the program, as its words give it. A name has at least one byte, is UTF-8 and isn't `-` alone.
#[derive(Debug, Drop)]
pub struct Command {
    /// What it does, and with what.
    pub task: Task,
    /// The name of the report's file.
    pub rpt: Text,
    /// The number of workers, 1 to 16, where the words give one.
    pub threads: Option<u32>,
}

/// What a command does.
#[derive(Debug, Drop)]
pub enum Task {
    /// Runs the input of this name, from the hotstart `hot_in` and to the hotstart `hot_out` where they are given.
    Run {
        inp: Text,
        hot_in: Option<Text>,
        hot_out: Option<Text>,
    },
    /// Checks the input of this name, and makes no run.
    Check {
        inp: Text,
    },
    /// Runs the sample network of this number, 0 to 4,294,967,295.
    Demo {
        number: u32,
    },
}

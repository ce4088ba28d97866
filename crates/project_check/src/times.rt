// The times of a run.
ghost use Rattle.std.specs.Prelude.{◌≡◌, int_lt};
ghost use Rattle.net_types.specs.Ranges.{OptionsInRange};
ghost use Rattle.project_check.specs.Times.{duration, ends_before_start, is_over_limit};

use net_types::Options;

// 3,660 days, in ms.
const LONGEST_MS: i64 = 316_224_000_000;

const MOST_STEPS: i64 = 50_000_000;

pub(crate) fn ends_before_start(options: &Options) -> bool
    ensures { result ≡ ends_before_start options.now }
{
    options.finish < options.start
}

// Whether a run lasts too long, or takes too many steps.
pub(crate) fn is_over_limit(options: &Options) -> bool
    requires { OptionsInRange options.now }
    ensures { result ≡ is_over_limit options.now }
{
    lasts_longer(options, LONGEST_MS) || lasts_longer(options, MOST_STEPS * options.step_ms)
}

// Whether a run lasts longer than a time, in ms.
fn lasts_longer(options: &Options, time: i64) -> bool
    requires { OptionsInRange options.now }
    ensures { result ≡ int_lt time (duration options.now) }
{
    time < options.finish - options.start
}

// When a pump starts and stops.
ghost use Rattle.std.specs.Prelude.{◌≡◌};
ghost use Rattle.fixed_num.specs.Ranges.{IsPart};
ghost use Rattle.pump_flow.specs.PumpSetting.{pump_setting_of};

/// The setting of a pump with this depth at its inlet, in millionths.
///
/// `startup` and `shutoff` are the depths at which it starts and stops (µm, 0 for none); `setting` is its
/// setting before.
/// Source: User's Manual, section [PUMPS]; this project's profile.
#[tactic(auto, using(fixed_num::proofs::Bounds::casts), unfolding(crate::specs::PumpSetting::pump_setting_of))]
pub fn pump_setting(startup: i64, shutoff: i64, depth: i64, setting: i64) -> i64
    requires { IsPart setting }
    ensures value { result ≡ pump_setting_of startup shutoff depth setting }
    ensures range { IsPart result }
{
    if shutoff > 0 && depth <= shutoff {
        return 0;
    }
    if startup > 0 && startup <= depth {
        return 1_000_000;
    }
    setting
}

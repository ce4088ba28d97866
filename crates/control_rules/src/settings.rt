// The settings after the rules of a project.
ghost use Rattle.std.specs.Prelude.{◌≡◌};
ghost use Rattle.net_types.specs.Sound.{IsSound};
ghost use Rattle.control_rules.specs.Conditions.{conditions_of, Fit};
ghost use Rattle.control_rules.specs.Settings.{settings_of};

use crate::facts::Facts;
use crate::places::{claim_links, clear, restore, settle_links};
use net_types::Project;

/// Gives the links the settings that the rules of the project bring about, in millionths.
///
/// A rule takes its actions after THEN where each of its groups has a true test, else those after ELSE. Of all actions
/// on a link that are taken, the one of the greatest priority gives its setting; one without priority is below all
/// others, and of equal ones the first in the file counts. A link without an action keeps its setting. The facts are as
/// many as the objects of the project, and `settings` is a copy of the settings among them. No memory is taken.
/// Source: User's Manual, section [CONTROLS]; this project's profile.
pub fn settings_after(project: &Project, facts: &Facts, settings: &mut [i64])
    requires sound { IsSound project.now }
    requires fit { Fit project.now (conditions_of facts.now) }
    requires copy { settings.old ≡ facts.now.settings.now }
    ensures { settings.new ≡ settings_of project.now (conditions_of facts.now) }
{
    clear(settings);
    claim_links(project, facts, settings);
    settle_links(project, settings);
    restore(facts.settings, settings);
}

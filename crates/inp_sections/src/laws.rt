// Laws of cross-sections and losses, in the words of their definitions.
ghost use Rattle.inp_sections.specs.Soundness.{LossesAreSound, SectionsAreSound};

/// Law: the cross-sections that lines mean lie in their ranges, and each has a link.
pub fn sections_are_sound()
    ensures { SectionsAreSound }
{}

/// Law: the losses that lines mean lie in their ranges, and each has a link.
pub fn losses_are_sound()
    ensures { LossesAreSound }
{}

// Laws of rain gages and subcatchments, in the words of their definitions.
ghost use Rattle.std.specs.Prelude.{◌≡◌, [], List as Sequence};
ghost use Rattle.net_types.specs.declared.hydrology.Gage.{Gage as DataGage};
ghost use Rattle.net_types.specs.declared.hydrology.Sub.{Sub as DataSub};
ghost use Rattle.inp_lines.specs.declared.line.Line.{Line as DataLine};
ghost use Rattle.inp_lines.specs.Gather.{gather};
ghost use Rattle.inp_lines.specs.Sources.{FaultsIn};
ghost use Rattle.inp_forms.specs.Context.{Context};
ghost use Rattle.inp_forms.specs.Laws.{MeanRecords};
ghost use Rattle.inp_hydrology.specs.Gages.{gage_fault, gage_forms, gages_of, is_gage_section};
ghost use Rattle.inp_hydrology.specs.Soundness.{AreasAreSound, GagesAreSound, SoilIsSound, SubsAreSound};
ghost use Rattle.inp_hydrology.specs.Subcatchments.{is_sub_section, sub_fault, sub_forms, subs_of};

/// Law: lines without a fault mean the rain gages that are read of them, and no others; a line has at most one fault as
/// a rain gage, and only a line of RAINGAGES has one.
pub fn gages_have_one_meaning()
    ensures meant { (known : Context) (lines : Sequence DataLine) → gather (gage_fault known) [] lines ≡ []
        → MeanRecords known gage_forms lines (gages_of known lines) }
    ensures one { (known : Context) (lines : Sequence DataLine) (a b : Sequence DataGage)
        → MeanRecords known gage_forms lines a → MeanRecords known gage_forms lines b → a ≡ b }
    ensures faults { (known : Context) → FaultsIn is_gage_section (gage_fault known) }
{}

/// Law: the same of subcatchments.
pub fn subs_have_one_meaning()
    ensures meant { (known : Context) (lines : Sequence DataLine) → gather (sub_fault known) [] lines ≡ []
        → MeanRecords known sub_forms lines (subs_of known lines) }
    ensures one { (known : Context) (lines : Sequence DataLine) (a b : Sequence DataSub)
        → MeanRecords known sub_forms lines a → MeanRecords known sub_forms lines b → a ≡ b }
    ensures faults { (known : Context) → FaultsIn is_sub_section (sub_fault known) }
{}

/// Law: the rain gages that lines mean lie in their ranges, and their numbers name objects.
pub fn gages_are_sound()
    ensures { GagesAreSound }
{}

/// Law: the same of subcatchments.
pub fn subs_are_sound()
    ensures { SubsAreSound }
{}

/// Law: the subareas that lines mean lie in their ranges, and each has a subcatchment.
pub fn areas_are_sound()
    ensures { AreasAreSound }
{}

/// Law: the infiltration numbers that lines mean lie in their ranges, are of the method, and each has a subcatchment.
pub fn soil_is_sound()
    ensures { SoilIsSound }
{}

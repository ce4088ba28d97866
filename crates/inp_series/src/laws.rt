// Laws of time series, curves and patterns, in the words of their definitions.
ghost use Rattle.inp_series.specs.Laws.{CurvesAreSound, CurvesHaveOneMeaning, FaultsAreOfSections};
ghost use Rattle.inp_series.specs.Laws.{PatternsAreSound, PatternsHaveOneMeaning, SeriesAreSound};
ghost use Rattle.inp_series.specs.Laws.{SeriesHaveOneMeaning};

/// Law: lines without a fault mean the time series that are read of them, and no others.
pub fn series_have_one_meaning()
    ensures { SeriesHaveOneMeaning }
{}

/// Law: lines without a fault mean the curves that are read of them, and no others.
pub fn curves_have_one_meaning()
    ensures { CurvesHaveOneMeaning }
{}

/// Law: lines without a fault mean the time patterns that are read of them, and no others.
pub fn patterns_have_one_meaning()
    ensures { PatternsHaveOneMeaning }
{}

/// Law: a line has at most one fault of each kind of record, and only a line of its section has one.
pub fn faults_are_of_sections()
    ensures { FaultsAreOfSections }
{}

/// Law: the time series of lines without a fault lie in their ranges; there are as many of them and of their entries as
/// may be.
pub fn series_are_sound()
    ensures { SeriesAreSound }
{}

/// Law: the curves of lines without a fault lie in their ranges; there are as many of them and of their points as may
/// be, and they have the types that are told of them.
pub fn curves_are_sound()
    ensures { CurvesAreSound }
{}

/// Law: the time patterns of lines without a fault lie in their ranges; there are as many of them as may be.
pub fn patterns_are_sound()
    ensures { PatternsAreSound }
{}

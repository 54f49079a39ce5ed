ghost use Rattle.token_cut.specs.Late.{LateValuesAreMet};
ghost use Rattle.token_cut.specs.Sizes.{SizesStay};
ghost use Rattle.token_cut.specs.Steps.{SealsAreExact};

/// A recording is complete once each worker was marked once, and what is sealed then is exactly what was marked, with the
/// mail of each mirror met with all late values for it.
pub fn seals_are_exact()
    ensures { SealsAreExact }
{}

/// Any late values lower the recorded mail of each mirror by those for it, and change nothing else.
pub fn late_values_are_met()
    ensures { LateValuesAreMet }
{}

/// What is recorded has the sizes of the shape from the first, and keeps them.
pub fn sizes_stay()
    ensures { SizesStay }
{}

//! Laws of flows, potentials and cuts.

ghost use Rattle.sx_dual.specs.Laws.{FitIsGreatest, OneGreatestValue, CutRefutes, MisfitRefutes, OneMisfit};

/// A flow that fits some potentials is a circulation, and no circulation within the same bounds
/// trades more value; all such circulations trade the same. Where there is a cut, there is no circulation. What has a misfit does not fit,
/// and has one first misfit. All this holds of numbers of any size.
pub fn dual_laws()
    ensures greatest { FitIsGreatest }
    ensures one_value { OneGreatestValue }
    ensures none { CutRefutes }
    ensures refutes { MisfitRefutes }
    ensures one { OneMisfit }
{}

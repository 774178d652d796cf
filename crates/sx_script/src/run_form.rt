//! The law of what a script makes of candidates.

ghost use Rattle.sx_script.specs.RunForm.{OutcomesKeepForm};

/// The outcomes of a script can be encoded: there is at most one for each candidate, and a shortage
/// tells less than what was needed.
pub fn run_laws()
    ensures form { OutcomesKeepForm }
{}

//! A script, small registers and small trees, worked by hand.

ghost use Rattle.register.specs.Worked.{WorkedExamples};

/// The small examples come out as worked by hand.
pub fn worked_examples_hold()
    ensures { WorkedExamples }
{}

//! The law of whole runs as a theorem of its own, apart from any memory.

ghost use Rattle.register.specs.Contents.{names};
ghost use Rattle.register.specs.Law.{EveryRun};

use kinds::NameOrder;

/// For every order of names, any turns that follow one another on a newly made register obey the law.
pub fn every_run_is_lawful<N: NameOrder>()
    ensures { EveryRun (names N.Key.words N.Key.key N.cmp N.NameOrder.named N.NameOrder.name) }
{}

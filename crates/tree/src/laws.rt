//! The laws of the tree, for every kind of key, and small trees worked by hand.

ghost use Rattle.tree.specs.Kind.{Kind};
ghost use Rattle.tree.specs.Laws.{TreeLaws};
ghost use Rattle.tree.specs.Worked.{WorkedFacts};

/// The laws of the tree hold for every kind of key.
pub fn laws_hold<K>()
    ensures { (𝓚 : Kind K) → TreeLaws 𝓚 }
{}

/// The small trees come out as worked by hand.
pub fn worked_facts_hold()
    ensures { WorkedFacts }
{}

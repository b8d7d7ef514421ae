//! Laws of the definitions, each the contract of a function that does nothing.
ghost use Rattle.typing.specs.Laws.{EqualityIsAnEquivalence, EquivalenceIsReflexive, EquivalenceIsSymmetric, EquivalenceIsTransitive, SomeStableListIsGreatest, MergingKeepsEquality, NormalValuesAreUnique, NormalFormsTell};

/// Equality at a node is an equivalence.
pub fn equality_is_an_equivalence()
    ensures { EqualityIsAnEquivalence }
{}

/// Equivalence of states is an equivalence.
pub fn equivalence_is_an_equivalence()
    ensures reflexive { EquivalenceIsReflexive }
    ensures symmetric { EquivalenceIsSymmetric }
    ensures transitive { EquivalenceIsTransitive }
{}

/// Some stable list is refined by every stable list, so states are equivalent exactly where it has
/// one number for them, and equivalence is the greatest stable partition.
pub fn greatest_stable_list()
    ensures { SomeStableListIsGreatest }
{}

/// What is equal under a list is equal under each list that merges some of its classes.
pub fn merging_keeps_equality()
    ensures { MergingKeepsEquality }
{}

/// Two normal values that fit a node and are equal there are one value.
pub fn normal_values_are_unique()
    ensures { NormalValuesAreUnique }
{}

/// Two normal forms are one value exactly where the relabelled values are equal.
pub fn normal_forms_tell()
    ensures { NormalFormsTell }
{}

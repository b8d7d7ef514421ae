//! Laws of quotients, each the contract of a function that does nothing.
ghost use Rattle.std.specs.Prelude.{ℕ, List};
ghost use Rattle.typing.specs.declared.value.Value.{Value};
ghost use Rattle.quotient_writer.specs.Laws.{NumberedByFirstStates, PickedAreFirstStates, FirstEquivalentsAreFirsts, FirstEquivalentsAreNumbered, NamesAreDetermined, ValuesAreDetermined, QuotientsAreMinimal, MinimalSystemsAreTheirOwnQuotients};

/// Classes are numbered by their first states exactly if, at each state, each class of a smaller
/// number has begun before.
pub fn classes_are_numbered_by_first_states()
    ensures { NumberedByFirstStates }
{}

/// What is picked stands, class by class, at the first state of the class.
pub fn first_states_are_picked()
    ensures names { PickedAreFirstStates (List ℕ) }
    ensures values { PickedAreFirstStates Value }
{}

/// First equivalent states are given for themselves, and numbers of which they are the first states
/// number the classes of equivalence, and are stable.
pub fn first_equivalents_are_numbered()
    ensures firsts { FirstEquivalentsAreFirsts }
    ensures numbered { FirstEquivalentsAreNumbered }
{}

/// Two quotients by one list have the same names and values.
pub fn quotients_are_determined()
    ensures names { NamesAreDetermined }
    ensures values { ValuesAreDetermined }
{}

/// Where equivalent states have one label, no two states of the quotient are equivalent.
pub fn quotients_are_minimal()
    ensures { QuotientsAreMinimal }
{}

/// Where no two states have one label, the quotient is the system itself.
pub fn minimal_systems_are_their_own_quotients()
    ensures { MinimalSystemsAreTheirOwnQuotients }
{}

//! What every decision tells of the processors.

ghost use Rattle.s2_triplex_laws.specs.DecisionFacts.{DecisionsAreRight, DecisionsNeverSplit, GoodProcessorsAreIn};

/// Every good processor is in, so at least two are, and one that is not in is the tainted one.
pub fn good_processors_are_in()
    ensures { GoodProcessorsAreIn }
{}

/// At a decision the good processors agree and are equal, whoever is named is the tainted one, and each member
/// that differs or is late is named.
pub fn decisions_are_right()
    ensures { DecisionsAreRight }
{}

/// No decision is split.
pub fn decisions_never_split()
    ensures { DecisionsNeverSplit }
{}

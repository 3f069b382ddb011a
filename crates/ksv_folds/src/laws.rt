//! The law, a contract of a function that does nothing.

ghost use Rattle.ksv_folds.specs.Laws.{OpenSequencesAreRight, SequencesAreRight, WholeSequencesAreRight};

/// The nodes of the elements before the last whole one are as the sequence says, and those of this one too, where the list goes on behind it; and all nodes where
/// the list ends with it.
pub fn sequences_are_right()
    ensures before { SequencesAreRight }
    ensures open { OpenSequencesAreRight }
    ensures whole { WholeSequencesAreRight }
{}

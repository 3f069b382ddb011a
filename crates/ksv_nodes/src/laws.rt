//! Laws of readings, turns and nodes, each a contract of a function that does nothing.

ghost use Rattle.ksv_nodes.specs.Exact.{EqualNodesAreSame};
ghost use Rattle.ksv_nodes.specs.Laws.{ReadingsAreLocal, ReadingsFit, TurnsMeetTruth, TurnsAreLocal, TurnsFit, TurnsAreBounded};
ghost use Rattle.ksv_nodes.specs.Numbers.{AreNodesNumbered};

/// On bytes that agree on all that a reading depends on, it gives the same.
pub fn readings_are_local()
    ensures { ReadingsAreLocal }
{}

/// What a reading depends on fits the bytes: a used range isn't empty, and each used place is within the bytes.
pub fn readings_fit()
    ensures { ReadingsFit }
{}

/// If the replies are the answers of a map, a rule's run asks for one node after the other, as the rule does there.
/// It ends with the rule's answer, and its uses are exactly the rule's.
pub fn turns_meet_truth()
    ensures { TurnsMeetTruth }
{}

/// On bytes that agree on all that a rule's run used, the run is the same, with the same uses, whatever the replies.
pub fn turns_are_local()
    ensures { TurnsAreLocal }
{}

/// All that a rule's run uses fits the bytes, whatever the replies.
pub fn turns_fit()
    ensures { TurnsFit }
{}

/// With as many replies as a rule asks nodes at most, its run has no open question, whatever the replies are.
pub fn turns_are_bounded()
    ensures { TurnsAreBounded }
{}

/// Nodes that `==` finds equal are the same node.
pub fn equal_nodes_are_same()
    ensures { EqualNodesAreSame }
{}

/// Each node has a number of its own, and there are finitely many.
pub fn nodes_are_numbered()
    ensures { AreNodesNumbered }
{}

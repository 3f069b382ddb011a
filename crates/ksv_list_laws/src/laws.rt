//! The laws, each a contract of a function that does nothing.

ghost use Rattle.ksv_list_laws.specs.Examples.{NumbersArePlain, CountedArePlain, ItemsArePlain, ItemsAreNamed, ItemsAreSizedNext};
ghost use Rattle.ksv_list_laws.specs.Laws.{NodesHavePaths, NodesTell, GuardsTell, TreesAreAsked, EntriesAreRight, FoldedStandIn, NodesGrow};
ghost use Rattle.ksv_list_laws.specs.Laws.{EarlierAreCompleted, UpToAreCompleted, ValuesComplete, ValuesAreWritten, WrittenArePlain, ShorterStaysPlain};

/// Each node of a plain list has a path, and answers, asks and uses from nothing what numbers alone tell: the heads and ends of its
/// elements and of their fields, the values that say sizes, and, where the last element is known, the rests. Where bytes end the list, so
/// does what is behind that element: each head and end has the fault of the first element that isn't there.
pub fn nodes_tell()
    ensures paths { NodesHavePaths }
    ensures tell { NodesTell }
{}

/// A change touches the tree of such a node just where it touches that of its guard, or the farthest place to which the node reads.
pub fn guards_tell()
    ensures { GuardsTell }
{}

/// What evaluating a node completes is what each node that it asks completes, and then it.
pub fn trees_are_asked()
    ensures { TreesAreAsked }
{}

/// What a node tells is right for an engine to keep. For all nodes of a plain list but the values that say sizes, so is an entry
/// that names the node's guard alone, and has the farthest place as its only use.
pub fn entries_are_right()
    ensures own { EntriesAreRight }
    ensures folded { FoldedStandIn }
{}

/// An engine that is right may keep the nodes of a plain list one after the other: a question for one whose asked nodes are kept completes
/// it alone. It may do so before they are asked, up to an element whose end is: a question for that completes all of them but rests.
pub fn nodes_grow()
    ensures alone { NodesGrow }
    ensures earlier { EarlierAreCompleted }
{}

/// So an engine may keep these nodes by numbers, in one order of all but rests. A question for one that is no value completes it and all
/// before it, if the field behind the one that says sizes is the first of such a size. One for a value completes it and all up to its
/// field's head.
pub fn nodes_complete_in_order()
    ensures up_to { UpToAreCompleted }
    ensures values { ValuesComplete }
{}

/// What a value that says sizes answers from nothing is what its bytes write, if its field's head answers what it is to: so an engine that
/// kept these answers knows that the bytes are still these. A list that is plain with none of its elements is so with the first ones,
/// if these end in its stream, its count excludes none of them, and each says its size.
pub fn values_are_written()
    ensures values { ValuesAreWritten }
    ensures plain { WrittenArePlain }
{}

/// After an edit that touches nothing on which the first elements depend, the list of these is plain, if its head answers the same.
pub fn shorter_stays_plain()
    ensures { ShorterStaysPlain }
{}

/// The laws are of something: three integers to the end of a file, behind which others aren't there, the same by a count, and two items
/// that say their sizes.
pub fn examples_are_plain()
    ensures numbers { NumbersArePlain }
    ensures counted { CountedArePlain }
    ensures items { ItemsArePlain }
    ensures named { ItemsAreNamed }
    ensures next { ItemsAreSizedNext }
{}

//! The laws, each a contract of a function that does nothing.

ghost use Rattle.ksv_rule_laws.specs.Expressions.{ExpressionsAreMet};
ghost use Rattle.ksv_rule_laws.specs.Laws.{AnswersHaveForms, AnswersStay, ValuesHaveHeads, ValuesMeetChecks, NoRuleMakesCircles, CirclesLeadBack, HeadsAreRead, FirstAttributesBegin, AttributesTouch, ElementsTouch, RestsCount, ToldCounts, PlacesAreInFile, HeadsLieInStreams, EndsLieInStreams};

/// An expression in a rule means what `ksv_expr_eval` says, each of its wants answered as the rules answer it. It asks and uses what
/// its wants do, one after the other.
pub fn expressions_are_met()
    ensures { ExpressionsAreMet }
{}

/// An answer that is no fault has its node's form, and a value is no stream.
pub fn answers_have_forms()
    ensures { AnswersHaveForms }
{}

/// With fewer nodes open, a node gives the same answer, unless it was a fault.
pub fn answers_stay()
    ensures { AnswersStay }
{}

/// A value is one of the head at its path: of a leaf an integer, a member, a text or bytes of it, of one bit a truth value; of an object
/// and a list its path.
pub fn values_have_heads()
    ensures { ValuesHaveHeads }
{}

/// A value that is answered meets what it must: each of some conditions is true, or one is and all before it are false.
pub fn values_meet_checks()
    ensures { ValuesMeetChecks }
{}

/// No rule makes a circle: a fault of this kind is the answer of a node that the rule asks.
pub fn no_rule_makes_circles()
    ensures { NoRuleMakesCircles }
{}

/// A node answers the fault circle just where nodes that ask one another lead from it to one that is open, and the fault is at the
/// path of that one.
pub fn circles_lead_back()
    ensures { CirclesLeadBack }
{}

/// Bytes and lists are read by an attribute of the description, bits by one of this many, and a list by one that repeats.
pub fn heads_are_read()
    ensures { HeadsAreRead }
{}

/// The first attribute of a type begins where its object does, and each further one where the one before it ends.
pub fn attributes_touch()
    ensures first { FirstAttributesBegin }
    ensures further { AttributesTouch }
{}

/// An element after another begins where that one ends, which isn't the last.
pub fn elements_touch()
    ensures { ElementsTouch }
{}

/// From its first element on, a list has as many elements as end, the last of which alone is the last, and it ends with that one;
/// where it is told how many elements it has, it has this many.
pub fn rests_count()
    ensures elements { RestsCount }
    ensures told { ToldCounts }
{}

/// Each place in an answer lies in the file.
pub fn places_are_in_file()
    ensures { PlacesAreInFile }
{}

/// What is at a path, and where it ends, lies in the stream of the object or list that holds it, of a parse instance with `io` in
/// the one that its `io` answers; and bytes don't end before they begin.
pub fn parts_lie_in_streams()
    ensures heads { HeadsLieInStreams }
    ensures ends { EndsLieInStreams }
{}

//! Laws of the rules of a description, each a contract of a function that does nothing. Those of what nodes answer are in
//! ksv_rule_laws.

ghost use Rattle.ksv_rule_meaning.specs.Direct.{AnswersAreDirect, AsksAreDirect, AnswersFollowRules, NextMeetsTruth};
ghost use Rattle.ksv_rule_meaning.specs.Laws.{CompletionIsDirect, CostIsDirect, RulesAreBounded, TouchIsDirect};

/// Evaluation from nothing by replies, as an engine has it, is evaluation from nothing by direct recursion on the rules: what a
/// node answers, what it asks, and what it uses.
pub fn evaluation_is_direct()
    ensures answers { AnswersAreDirect }
    ensures asks { AsksAreDirect }
    ensures rules { AnswersFollowRules }
{}

/// Where the replies are true, a node asks one node after the other of those that its rule asks, and is then done with the answer
/// of its rule; what it uses is what the rule uses.
pub fn next_meets_truth()
    ensures { NextMeetsTruth }
{}

/// A rule asks a number of nodes that its description tells, whatever they answer and whatever the bytes are; with this many
/// replies a node is done.
pub fn rules_are_bounded()
    ensures { RulesAreBounded }
{}

// ---- what is kept

/// By replies, as an engine has it, evaluation of a node meets a circle just where it does so directly, and completes the same nodes
/// in the same order.
pub fn completion_is_direct()
    ensures { CompletionIsDirect }
{}

/// An edit touches a node by replies just where it does so directly.
pub fn touch_is_direct()
    ensures { TouchIsDirect }
{}

/// A node takes as many calls of its rule by replies as it asks nodes directly, and one more.
pub fn cost_is_direct()
    ensures { CostIsDirect }
{}

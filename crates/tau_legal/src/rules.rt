//! What every fitting trace keeps.
ghost use Rattle.tau_legal.specs.RuleLaws.{FittingTracesKeepTheRules};
ghost use Rattle.tau_legal.specs.Receivers.{MessagesHaveReceivers};

/// Whatever the program, a trace in which every step fits keeps the facts from which it is safe, and from which the views of
/// what was heard are settled: a Rollback and a Set are made by a volatile transactor alone, a Fall has a cause that was heard
/// of, and a Checkpoint is made by a free transactor (docs/definitions.md, "Fitting and legal steps", "Safe").
#[tactic(auto, using(crate::proofs::SafetyLemmas::keeps_rules))]
pub fn fitting_traces_keep_the_rules()
    ensures { FittingTracesKeepTheRules }
{}

/// Whatever the program, each message of a trace in which every step fits has a receiver (docs/rules.md, "Numbers").
pub fn messages_have_receivers()
    ensures { MessagesHaveReceivers }
{}

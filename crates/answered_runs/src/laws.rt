//! Laws of answers that close an alternative: each function does nothing, and its contract is the law.
ghost use Rattle.answered_runs.specs.AnswersAtOnce.{AnswersAreLegal, AnswersCloseAtOnce, AnswersFit, NoOtherFits};

/// An answer over recoveries of catches has one shape: a catch node for each recovery, or one node for the answer.
pub fn one_shape_fits()
    ensures fits { AnswersFit }
    ensures alone { NoOtherFits }
{}

/// Where the run of the leftmost pending alternative has come to an answer over recoveries alone, its nodes may be made, and the
/// answer be handed out and taken at once.
pub fn answers_may_follow()
    ensures { AnswersAreLegal }
{}

/// The tree after these three events is the one where the alternative closes with the inferences of the run and the answer: of the
/// nodes that were made nothing is left but their numbers.
pub fn answers_close_at_once()
    ensures { AnswersCloseAtOnce }
{}

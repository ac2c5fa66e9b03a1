//! What a row says of the run of a text.
use run_model::Ending;

/// A text, the budget, the ending, and the lines.
pub type Row = (&'static str, &'static str, Ending, &'static str);

pub const FINISHED: Ending = Ending::Finished;

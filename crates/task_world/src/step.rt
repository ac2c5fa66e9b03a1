//! What comes of an alternative at the front.
use public_tree::Answering;
use tree_closing::Closing;

/// What has come of an alternative that was to be taken at the front.
#[derive(Drop)]
pub enum FrontStep {
    /// It was taken, or why it was not.
    Done(Answering),
    /// The world is the one after it, and it has yet to close as this says.
    Closes(Closing),
}

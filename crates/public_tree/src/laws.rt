//! Laws of public trees: each function does nothing, and its contract is the law.
ghost use Rattle.public_tree.specs.Following.{EventsFollow, KnownEventsFollow, SeveralFollow, NothingFollows, OpeningFollows, IsOnce, GoesOn, IsPrefix, IsRightEnd};

use interleaving::laws::histories::{histories_end_right, histories_keep_prefixes};
use interleaving::laws::trees::{handed_out_once, never_stuck};

/// A tree that was opened for a job stands for the job's tree. Once a call has noted one event more, several, or none, it stands
/// for the tree after the events that were noted, and these are a legal history.
pub fn histories_stay_legal()
    ensures opening { OpeningFollows }
    ensures event { EventsFollow }
    ensures known { KnownEventsFollow }
    ensures several { SeveralFollow }
    ensures nothing { NothingFollows }
{}

/// What is promised of legal histories is promised of the events that are noted.
pub fn promises_are_kept()
    ensures once { IsOnce }
    ensures going { GoesOn }
    ensures prefix { IsPrefix }
    ensures end { IsRightEnd }
{
    handed_out_once();
    never_stuck();
    histories_keep_prefixes();
    histories_end_right();
}

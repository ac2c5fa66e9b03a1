//! Laws of what is handed out of a tree and comes back: each function does nothing, and its contract is the law.
ghost use Rattle.hand_out_laws.specs.HandedBack.{AllBack, AllBackWhileGoing, GoesOnOrEnds, OneGoesOut, OneComesBack, OnlyStopsStop, TurnsBack, AllTurnBack};

use interleaving::laws::trees::never_stuck;

/// Where all that was handed out has come back, nobody has a task, unless the tree was halted: a halt leaves its alternative with
/// the worker that took it.
pub fn all_is_back()
    ensures unhalted { AllBack }
    ensures going { AllBackWhileGoing }
{}

/// Where all has come back, the tree has ended, was stopped, or offers something.
pub fn goes_on_or_ends()
    ensures { GoesOnOrEnds }
{
    never_stuck();
}

/// Where all has come back, what is handed out next is alone out, and once it is given back all has come back again; so it is
/// after any number of alternatives that go out and come back one after another.
pub fn out_and_back()
    ensures out { OneGoesOut }
    ensures back { OneComesBack }
    ensures once { TurnsBack }
    ensures again { AllTurnBack }
{}

/// Only an event that stops it stops a tree.
pub fn only_stops_stop()
    ensures { OnlyStopsStop }
{}

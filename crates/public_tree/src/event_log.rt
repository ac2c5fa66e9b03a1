//! The events so far.
ghost use Rattle.std.specs.Prelude.{◌≡◌, ◌<◌, ◌≤◌, ◌+◌, ◌-◌, ◌∷◌, ◌++◌, [], true, false, IfOk, OnOk};
ghost use Rattle.tree_model.specs.EventViews.{event_view};
ghost use Rattle.tree_model.specs.Events.{Stop};

use au_term::NoMemory;
use std::alloc::Global;
use std::marker::Model;
use tree_model::Event;

/// The events of a tree in their order, with room for those by which tasks come back, and for the last one.
#[derive(Drop)]
pub(crate) struct EventLog {
    events: Vec<Event>,
    stopped: bool,
    promised: usize,
}

impl Model for EventLog {
    ghost use Rattle.std.specs.Prelude.{◌-◌, vec_len, vec_capacity};
    ghost use Rattle.tree_model.specs.EventViews.{history_view};
    ghost use Rattle.public_tree.specs.EventLogs.{LogView, HasRoom};

    ghost Value = { LogView };

    ghost view = { λ s. record { events = history_view s.events.items; stopped = s.stopped; room = vec_capacity s.events - vec_len s.events; promised = s.promised } };

    ghost invariant = { λ s. HasRoom s.stopped s.promised (vec_capacity s.events - vec_len s.events) };
}

impl EventLog {
    /// No events.
    pub(crate) fn new(alloc: Global) -> Result<EventLog, NoMemory>
        ensures events { IfOk result (λ log. log.events ≡ []) }
        ensures stopped { IfOk result (λ log. log.stopped ≡ false) }
        ensures promised { IfOk result (λ log. log.promised ≡ 0) }
    {
        let mut events = Vec::new(alloc);
        events.try_reserve(1)?;
        Ok(EventLog {
            events,
            stopped: false,
            promised: 0,
        })
    }

    /// Whether nothing follows.
    pub(crate) fn is_stopped(&self) -> bool
        ensures { result ≡ self.now.stopped }
    {
        self.stopped
    }

    /// Makes room for an event by which a task goes out, and for the one by which it comes back.
    pub(crate) fn reserve(&mut self) -> Result<(), NoMemory>
        ensures events { self.new.events ≡ self.old.events }
        ensures stopped { self.new.stopped ≡ self.old.stopped }
        ensures promised { self.new.promised ≡ self.old.promised }
        ensures ok { OnOk result (self.new.promised + 2 < self.new.room) }
    {
        let Some(room) = self.promised.checked_add(3) else {
            return Err(NoMemory);
        };
        self.events.try_reserve(room)?;
        Ok(())
    }

    /// Notes that a task goes out.
    pub(crate) fn note_out(&mut self, event: Event)
        requires { self.old.promised + 2 < self.old.room }
        ensures events { self.new.events ≡ self.old.events ++ event_view event ∷ [] }
        ensures stopped { self.new.stopped ≡ self.old.stopped }
        ensures promised { self.new.promised ≡ self.old.promised + 1 }
    {
        self.promised += 1;
        match self.events.push(event) {
            Ok(()) => {}
            Err(_) => unreachable!(),
        }
    }

    /// Notes that a task comes back.
    pub(crate) fn note_back(&mut self, event: Event)
        requires going { self.old.stopped ≡ false }
        requires promised { 0 < self.old.promised }
        ensures events { self.new.events ≡ self.old.events ++ event_view event ∷ [] }
        ensures stopped { self.new.stopped ≡ self.old.stopped }
        ensures promised { self.new.promised ≡ self.old.promised - 1 }
        ensures room { self.old.room ≤ self.new.room + 1 }
    {
        self.promised -= 1;
        match self.events.push(event) {
            Ok(()) => {}
            Err(_) => unreachable!(),
        }
    }

    /// Notes that a task comes back, and that another one goes out and comes back.
    pub(crate) fn note_turn(&mut self, back: Event, out: Event, again: Event)
        requires going { self.old.stopped ≡ false }
        requires promised { 0 < self.old.promised }
        requires room { self.old.promised + 2 < self.old.room }
        ensures events { self.new.events ≡ self.old.events ++ event_view back ∷ event_view out ∷ event_view again ∷ [] }
        ensures stopped { self.new.stopped ≡ self.old.stopped }
        ensures promised { self.new.promised ≡ self.old.promised - 1 }
    {
        self.note_back(back);
        self.note_out(out);
        self.note_back(again);
    }

    /// Notes that the tree was stopped.
    pub(crate) fn stop(&mut self, worker: u32)
        requires { self.old.stopped ≡ false }
        ensures events { self.new.events ≡ self.old.events ++ Stop worker ∷ [] }
        ensures stopped { self.new.stopped ≡ true }
        ensures promised { self.new.promised ≡ self.old.promised }
    {
        self.stopped = true;
        match self.events.push(Event::Stop { worker }) {
            Ok(()) => {}
            Err(_) => unreachable!(),
        }
    }
}

//! Values that have a history.
ghost use Rattle.std.specs.Prelude.{◌≡◌, ◌<◌, ◌^◌, length};

/// A value with an opening, which stays, and a history of events, which grows.
pub trait Storied: Send {
    ghost use Rattle.std.specs.Prelude.{List};
    ghost use Rattle.tree_model.specs.declared.events.Event.{Event};

    /// What an opening is.
    type Opening;

    /// With what the value was opened.
    ghost opening: { Self → Self.Opening };

    /// The events so far, in their order.
    ghost history: { Self → List Event };

    /// How many events there were so far.
    fn events(&self) -> u64
        ensures count { result ≡ length (history self.now) }
        ensures below { result < 2 ^ 62 };
}

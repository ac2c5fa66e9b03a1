//! Places in rising order, and two lists of them merged.
ghost use Rattle.std.specs.Prelude.{◌≡◌, ◌∷◌, [], MatchOption};
ghost use Rattle.proc_index.specs.Places.{HasNoneLeft, IsLeastTaken};

/// Two lists of places in rising order, of which the least is taken first.
#[derive(Clone, Copy)]
pub(crate) struct Merged<'a> {
    pub(crate) left: &'a [usize],
    pub(crate) right: &'a [usize],
}

impl<'a> Merged<'a> {
    /// Takes the least place, if one is left.
    pub(crate) fn take_least(&mut self) -> Option<usize>
        ensures { MatchOption result (HasNoneLeft self.old.left.now self.old.right.now × (self.new ≡ self.old))
            (λ place. IsLeastTaken self.old.left.now self.old.right.now place self.new.left.now self.new.right.now) }
    {
        match (self.left.split_first(), self.right.split_first()) {
            (Some((place, rest)), Some((other, others))) => {
                if place < other {
                    self.left = rest;
                    Some(*place)
                } else {
                    self.right = others;
                    Some(*other)
                }
            }
            (Some((place, rest)), None) => {
                self.left = rest;
                Some(*place)
            }
            (None, Some((place, rest))) => {
                self.right = rest;
                Some(*place)
            }
            (None, None) => None,
        }
    }
}

//! How far a text agrees, from each of its places on, with its own beginning. Each character is found to agree only
//! once, so all places take the time of one pass (the Z algorithm).
ghost use Rattle.std.specs.Prelude.{◌≡◌, ◌+◌, ◌-◌, ◌<◌, ◌≤◌, ◌⊎◌, ◌^◌, length, get_or, IfOk};
ghost use Rattle.std_builtins.specs.Agreements.{AgreeFor, AreAgreements, AreKnown, IsAgreement, IsStretch};

use au_term::NoMemory;
use std::alloc::Global;

/// What agrees with the beginning and reaches furthest, from a place up to another. It is empty before any was found.
#[derive(Clone, Copy)]
pub(crate) struct Stretch {
    pub(crate) from: usize,
    pub(crate) to: usize,
}

impl Stretch {
    /// For how many characters a place in the stretch is known to agree, from what was found at the beginning.
    fn known(self, found: &[usize], place: usize) -> usize
        requires from { 1 ≤ self.from }
        requires before { self.from ≤ place }
        requires found { length found.now ≡ place }
        ensures { 0 < result → (place + result ≤ self.to) × (result ≤ get_or found.now (place - self.from) 0) }
    {
        if place < self.to {
            found[place - self.from].min(self.to - place)
        } else {
            0
        }
    }

    /// The stretch that reaches furthest, after so many characters agree at a place.
    fn with(self, place: usize, count: usize) -> Stretch
        requires within { place + count < 2 ^ 64 }
        ensures { (result ≡ self) ⊎ (result ≡ record { from = place; to = place + count }) }
    {
        if place + count > self.to {
            Stretch {
                from: place,
                to: place + count,
            }
        } else {
            self
        }
    }
}

/// For how many characters the text from each place on agrees with its beginning; at the beginning itself 0 is said.
pub(crate) fn agreements(alloc: Global, text: &[char]) -> Result<Vec<usize>, NoMemory>
    ensures { IfOk result (λ found. AreAgreements text.now found.items) }
{
    let mut found = Vec::new(alloc);
    found.push(0)?;
    let mut stretch = Stretch { from: 1, to: 0 };
    for place in 1..text.len() {
        let count = agreement_at(text, &found, stretch, place);
        stretch = stretch.with(place, count);
        found.push(count)?;
    }
    Ok(found)
}

/// For how many characters the text from a place on agrees with its beginning.
fn agreement_at(text: &[char], found: &[usize], stretch: Stretch, place: usize) -> usize
    requires stretch { IsStretch text.now place stretch }
    requires found { AreKnown text.now place found.now }
    requires within { place < length text.now }
    ensures { IsAgreement text.now place result }
{
    for at in place + stretch.known(found, place)..text.len() {
        if text[at] != text[at - place] {
            return at - place;
        }
    }
    text.len() - place
}

//! Atoms.
ghost use Rattle.std.specs.Prelude.{◌≡◌, IfOk, nat_eq, Some, refl};
ghost use Rattle.std.specs.Str.{chars, IsAscii};
ghost use Rattle.std.specs.Ordering.{nat_cmp};
ghost use Rattle.std.specs.Cmp.Lexicographic.{pointwise, slice_cmp, nat_list_eq_equiv, nat_list_cmp_total, texts_ties, texts_po};
ghost use Rattle.std.specs.Cmp;

use crate::NoMemory;
use std::alloc::Global;
use std::cmp::Ordering;
use std::marker::Model;
use std::sync::ArcStr;

/// An atom: a list of characters. Atoms are ordered by their characters' codes, and two with the
/// same characters are the same atom (ISO/IEC 13211-1:1995, 3.9 and 7.2.4).
#[derive(Drop)]
pub struct Atom {
    text: ArcStr,
}

impl Model for Atom {
    ghost use Rattle.std.specs.Prelude.{ℕ, List};
    ghost use Rattle.std.specs.Str.{chars};
    ghost use Rattle.std.specs.Arc.{arc_str_bytes};

    ghost Value = { List ℕ };

    ghost view = { λ a. chars (arc_str_bytes a.text) };
}

impl Atom {
    /// The atom of these characters.
    pub fn new(alloc: Global, text: &str) -> Result<Atom, NoMemory>
        ensures { IfOk result (λ a. a ≡ chars text.now) }
    {
        Ok(Atom {
            text: ArcStr::from_str(alloc, text)?,
        })
    }

    /// The atom of these ASCII characters.
    pub fn ascii(alloc: Global, text: &str) -> Result<Atom, NoMemory>
        requires { IsAscii text.now }
        ensures { IfOk result (λ a. a ≡ text.now) }
    {
        Atom::new(alloc, text)
    }

    /// The characters, as text.
    pub fn text(&self) -> &str
        ensures { chars result.now ≡ self.now }
    {
        self.text.as_str()
    }

    /// Whether it has these ASCII characters.
    pub fn is_text(&self, text: &str) -> bool
        requires { IsAscii text.now }
        ensures { result ≡ pointwise nat_eq self.now text.now }
    {
        is_text(self.text(), text)
    }

    /// Whether two atoms are the same.
    pub fn same(&self, other: &Atom) -> bool
        ensures { result ≡ pointwise nat_eq self.now other.now }
    {
        self.text() == other.text()
    }

    /// The same atom.
    pub fn share(&self) -> Result<Atom, NoMemory>
        ensures { IfOk result (λ a. a ≡ self.now) }
    {
        Ok(Atom {
            text: self.text.clone()?,
        })
    }
}

/// Whether a name has these ASCII characters.
pub fn is_text(name: &str, text: &str) -> bool
    requires { IsAscii text.now }
    ensures { result ≡ pointwise nat_eq (chars name.now) text.now }
{
    name == text
}

impl PartialEq for Atom {
    ghost eq = { pointwise nat_eq };

    ghost laws = { Cmp.partial_equiv_from_equiv nat_list_eq_equiv };

    fn eq(&self, other: &Atom) -> bool {
        self.same(other)
    }
}

impl Eq for Atom {
    ghost laws = { nat_list_eq_equiv };
}

impl PartialOrd for Atom {
    ghost partial_cmp = { λ x y. Some (slice_cmp nat_cmp x y) };

    ghost laws = { texts_po };

    fn partial_cmp(&self, other: &Atom) -> Option<Ordering> {
        Some(self.cmp(other))
    }
}

impl Ord for Atom {
    ghost cmp = { slice_cmp nat_cmp };

    ghost total = { nat_list_cmp_total };

    ghost matches_partial_cmp = { λ x y. refl };

    ghost matches_eq = { texts_ties };

    fn cmp(&self, other: &Atom) -> Ordering {
        self.text().chars().cmp(other.text().chars())
    }
}

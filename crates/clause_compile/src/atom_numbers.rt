//! Names by number.
ghost use Rattle.std.specs.Prelude.{◌≡◌, [], ◌<◌, IfOk, OnErr, None, length};
ghost use Rattle.clause_compile.specs.AtomNumbers.{IsNumbered, AreDistinct, name_at, number_of_name};

use au_term::{Atom, NoMemory};
use std::alloc::Global;
use std::collections::BTreeMap;
use std::marker::Model;

/// Names in the order in which they were first met; a name's place is its number. Contracts see the names.
#[derive(Drop)]
pub struct AtomNumbers {
    names: Vec<Atom>,
    numbers: BTreeMap<Atom, u32>,
}

impl Model for AtomNumbers {
    ghost use Rattle.std.specs.Prelude.{◌≡◌, ℕ, List};
    ghost use Rattle.std.specs.Coded.{coded_list, coded_ℕ};

    ghost Value = { List (List ℕ) };

    ghost coded = { coded_list (coded_list coded_ℕ) };

    ghost use Rattle.clause_compile.specs.AtomNumbers.{IsNumbering};

    ghost view = { λ a. a.names.items };

    ghost invariant = { λ a. IsNumbering a.names.items a.numbers };
}

impl AtomNumbers {
    /// No names.
    pub fn new(alloc: Global) -> AtomNumbers
        ensures { result ≡ [] }
    {
        AtomNumbers {
            names: Vec::new(alloc),
            numbers: BTreeMap::new(alloc),
        }
    }

    /// How many there are. No two are the same.
    pub fn len(&self) -> usize
        ensures count { result ≡ length self.now }
        ensures distinct { AreDistinct self.now }
    {
        self.names.len()
    }

    /// The number of a name, if it has one.
    pub fn find(&self, name: &Atom) -> Option<u32>
        ensures { result ≡ number_of_name self.now name.now }
    {
        match self.numbers.get(name) {
            Some(number) => Some(*number),
            None => None,
        }
    }

    /// The number of a name, which gets the next one where it has none.
    pub fn number(&mut self, name: &Atom) -> Result<u32, NoMemory>
        ensures ok { IfOk result (IsNumbered self.old self.new name.now) }
        ensures err { OnErr result (self.new ≡ self.old) }
    {
        match self.numbers.get(name) {
            Some(number) => Ok(*number),
            None => self.add(name),
        }
    }

    /// Gives the next number to a name that has none.
    fn add(&mut self, name: &Atom) -> Result<u32, NoMemory>
        requires { number_of_name self.old name.now ≡ None }
        ensures ok { IfOk result (IsNumbered self.old self.new name.now) }
        ensures err { OnErr result (self.new ≡ self.old) }
    {
        let Ok(number) = u32::try_from(self.names.len()) else {
            return Err(NoMemory);
        };
        self.names.reserve(1)?;
        let own = name.share()?;
        self.numbers.insert(name.share()?, number)?;
        self.names.push(own).unwrap();
        Ok(number)
    }

    /// The name with a number.
    pub fn name(&self, number: u32) -> &Atom
        requires { number < length self.now }
        ensures { result.now ≡ name_at self.now number }
    {
        &self.names[number as usize]
    }
}

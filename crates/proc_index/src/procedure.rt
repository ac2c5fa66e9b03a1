//! The places of a procedure's clauses.
ghost use Rattle.std.specs.Prelude.{◌≡◌, [], false, cond, Some, OnOk};
ghost use Rattle.proc_index.specs.Keys.{is_any};
ghost use Rattle.proc_index.specs.ProcedureIndex.{IsEmpty, IsPut, IsPutUnder, all_in, variables_in, keyed_in};

use crate::key::Key;
use crate::places::Merged;
use au_term::NoMemory;
use std::alloc::Global;
use std::collections::BTreeMap;

/// The places of clauses, by the key of their first argument.
pub(crate) type Keyed = BTreeMap<Key, Vec<usize>>;

/// The places of a procedure's clauses in the order of the text: of all, of those whose first argument is a variable or
/// that have none, and of the others by its key.
#[derive(Drop)]
pub(crate) struct Procedure {
    pub(crate) all: Vec<usize>,
    pub(crate) variables: Vec<usize>,
    pub(crate) keyed: Keyed,
}

impl Procedure {
    /// No clauses.
    pub(crate) fn new(alloc: Global) -> Procedure
        ensures { IsEmpty result }
    {
        Procedure {
            all: Vec::new(alloc),
            variables: Vec::new(alloc),
            keyed: BTreeMap::new(alloc),
        }
    }

    /// Puts the place of a clause with this key after the others.
    pub(crate) fn put(&mut self, alloc: Global, place: usize, key: Key) -> Result<(), NoMemory>
        ensures { OnOk result (IsPut self.old self.new place key) }
    {
        self.all.push(place)?;
        if key.is_any() {
            self.variables.push(place)?;
            return Ok(());
        }
        put_under(alloc, &mut self.keyed, key, place)
    }

    /// The places of the clauses whose first argument is a variable or has the key.
    pub(crate) fn places_of(&self, first: &Key) -> Merged<'_>
        ensures left { result.left.now ≡ cond (is_any first.now) (all_in (Some self.entry.now)) (variables_in (Some self.entry.now)) }
        ensures right { result.right.now ≡ cond (is_any first.now) [] (keyed_in (Some self.entry.now) first.now) }
    {
        if first.is_any() {
            return Merged {
                left: &self.all,
                right: &[],
            };
        }
        Merged {
            left: &self.variables,
            right: match self.keyed.get(first) {
                Some(places) => places,
                None => &[],
            },
        }
    }
}

/// Puts a place after those under a key.
fn put_under(alloc: Global, keyed: &mut Keyed, key: Key, place: usize) -> Result<(), NoMemory>
    requires { is_any key ≡ false }
    ensures { OnOk result (IsPutUnder keyed.old keyed.new key place) }
{
    let mut places = keyed.remove(&key).unwrap_or(Vec::new(alloc));
    places.push(place)?;
    keyed.insert(key, places)?;
    Ok(())
}

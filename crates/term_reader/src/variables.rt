//! The variables of a term.
ghost use Rattle.std.specs.Prelude.{◌≡◌, ◌-◌, ◌<◌, ◌^◌, IfOk, None, suc};
ghost use Rattle.std.specs.Str.{chars};
ghost use Rattle.au_model.specs.Syntax.VariableNumbers as numbers;
ghost use Rattle.au_model.specs.Syntax.VariableNumbers.{is_anonymous, no_variables};
ghost use Rattle.term_reader.specs.OutputView.{IsNewVariable, IsVariableNumbered, IsVariablesOf};
ghost use Rattle.au_model.specs.Terms.Named.{variable_meant};
ghost use Rattle.std.specs.Prelude.{List, map};

use au_model::VarName;
use au_term::{Atom, NoMemory, VarNo, is_text};
use std::alloc::Global;
use std::collections::BTreeMap;

/// The variables that have come, numbered from 0 in the order of first occurrence. Each `_` is a new one.
#[derive(Drop)]
pub(crate) struct Variables {
    numbers: BTreeMap<Atom, VarNo>,
    named: Vec<VarName>,
    next: VarNo,
}

/// Whether a name is `_`.
fn is_anonymous(name: &str) -> bool
    ensures { result ≡ is_anonymous (chars name.now) }
{
    is_text(name, "_")
}

impl Variables {
    /// No variable.
    pub(crate) fn new(alloc: Global) -> Variables
        ensures { IsVariablesOf result no_variables }
    {
        Variables {
            numbers: BTreeMap::new(alloc),
            named: Vec::new(alloc),
            next: 0,
        }
    }

    /// The number of an occurrence of a variable.
    pub(crate) fn number(&mut self, alloc: Global, name: Atom) -> Result<VarNo, NoMemory>
        ensures { (vs : numbers.Variables) → IsVariablesOf self.old vs → IfOk result (λ k. IsVariableNumbered self.new vs name k) }
    {
        if is_anonymous(name.text()) {
            return self.draw();
        }
        if let Some(number) = self.numbers.get(&name) {
            return Ok(*number);
        }
        self.add(alloc, name)
    }

    /// A new number for a name.
    fn add(&mut self, alloc: Global, name: Atom) -> Result<VarNo, NoMemory>
        ensures { (vs : numbers.Variables) → IsVariablesOf self.old vs → numbers.number_of vs.named name ≡ None → IfOk result (λ k. IsNewVariable self.new vs name k) }
    {
        let number = self.draw()?;
        let text = String::from_str(alloc, name.text())?;
        self.named.push(VarName { text, number })?;
        self.numbers.insert(name, number)?;
        Ok(number)
    }

    /// The next number.
    fn draw(&mut self) -> Result<VarNo, NoMemory>
        ensures { (vs : numbers.Variables) → IsVariablesOf self.old vs → IfOk result (λ k. (k ≡ vs.next) × (k < 2 ^ 64 - 1) × IsVariablesOf self.new (record { named = vs.named; next = suc vs.next })) }
    {
        let number = self.next;
        // A term of more than 2^64 - 2 variables fits no memory.
        if number >= u64::MAX - 1 {
            return Err(NoMemory);
        }
        self.next = number + 1;
        Ok(number)
    }

    /// The named ones.
    pub(crate) fn names(self) -> Vec<VarName>
        ensures { (vs : numbers.Variables) → IsVariablesOf self vs → map variable_meant result.items ≡ vs.named }
    {
        let Variables {
            numbers: _,
            named,
            next: _,
        } = self;
        named
    }
}

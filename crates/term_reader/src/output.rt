//! The cells of what was read, each after its arguments.
ghost use Rattle.std.specs.Prelude.{◌≡◌, ◌<◌, ◌≤◌, pos, [], ◌∷◌, IfOk, OnOk, length, map};
ghost use Rattle.std.specs.Str.{chars};
ghost use Rattle.au_term.specs.declared.cell.Cell.TheVariants.{Functor};
ghost use Rattle.au_term.specs.PrefixOrder.{IsValidCell};
ghost use Rattle.au_model.specs.Syntax.Trees.{Tree, code_list, char_list, AtomTree};
ghost use Rattle.au_model.specs.Terms.Forms.{nil_name};
ghost use Rattle.au_model.specs.Syntax.VariableNumbers.{no_variables, numbered};
ghost use Rattle.term_reader.specs.PrimaryView.{leaf_tree};
ghost use Rattle.term_reader.specs.OutputView.{IsOutputOf};
ghost use Rattle.term_reader.specs.TermOutput as sheets;
ghost use Rattle.term_reader.specs.TermOutput.{no_cells, emit_cell, emit_chars, emit_codes, emit_lists, emit_tree};
ghost use Rattle.au_model.specs.Terms.Named.{variable_meant};

use crate::order::prefix_order;
use crate::primary::Leaf;
use crate::variables::Variables;
use au_model::{DoubleQuotes, VarName};
use au_term::{Atom, Cell, FlatTerm, NoMemory};
use std::alloc::Global;

/// The cells of the terms that were read, and their variables. A compound's cell is after its arguments.
#[derive(Drop)]
pub(crate) struct TermOutput {
    cells: Vec<Cell>,
    variables: Variables,
}

/// The atom of one character.
fn char_atom(alloc: Global, c: char) -> Result<Atom, NoMemory>
    ensures { IfOk result (λ a. a ≡ c ∷ []) }
{
    let mut text = String::new(alloc);
    text.push(c)?;
    Atom::new(alloc, text.as_str())
}

/// The code of a character.
fn code_of(c: char) -> i64
    ensures { result ≡ pos c }
{
    i64::from(u32::from(c))
}

impl TermOutput {
    /// No term.
    pub(crate) fn new(alloc: Global) -> TermOutput
        ensures { IsOutputOf result no_cells }
    {
        TermOutput {
            cells: Vec::new(alloc),
            variables: Variables::new(alloc),
        }
    }

    /// Puts a cell after the others.
    fn emit(&mut self, cell: Cell) -> Result<(), NoMemory>
        requires { IsValidCell cell }
        ensures { (s : sheets.TermOutput) → IsOutputOf self.old s → OnOk result (IsOutputOf self.new (emit_cell s cell)) }
    {
        self.cells.push(cell)?;
        Ok(())
    }

    /// Puts an occurrence of a variable.
    fn variable(&mut self, alloc: Global, name: Atom) -> Result<(), NoMemory>
        ensures { (s : sheets.TermOutput) → IsOutputOf self.old s → OnOk result (IsOutputOf self.new (sheets.emit_variable s name)) }
    {
        let number = self.variables.number(alloc, name)?;
        self.cells.push(Cell::Var(number))?;
        Ok(())
    }

    /// Puts an operand of one token.
    pub(crate) fn leaf(
        &mut self,
        alloc: Global,
        quotes: DoubleQuotes,
        leaf: Leaf,
    ) -> Result<(), NoMemory>
        ensures { (s : sheets.TermOutput) → IsOutputOf self.old s → OnOk result (IsOutputOf self.new (emit_tree s (leaf_tree quotes leaf))) }
    {
        match leaf {
            Leaf::Variable(name) => self.variable(alloc, name),
            Leaf::Integer(number) => self.emit(Cell::Int(number)),
            Leaf::Atom(name) => self.emit(Cell::Atom(name)),
            Leaf::Text(text) => match quotes {
                DoubleQuotes::Codes => self.codes(alloc, text.text()),
                DoubleQuotes::Chars => self.chars(alloc, text.text()),
                DoubleQuotes::Atom => self.emit(Cell::Atom(text)),
            },
        }
    }

    /// Puts the empty list.
    pub(crate) fn nil(&mut self, alloc: Global) -> Result<(), NoMemory>
        ensures { (s : sheets.TermOutput) → IsOutputOf self.old s → OnOk result (IsOutputOf self.new (emit_tree s (AtomTree nil_name))) }
    {
        let name = Atom::ascii(alloc, "[]")?;
        self.emit(Cell::Atom(name))
    }

    /// Puts a compound over the last terms.
    pub(crate) fn compound(&mut self, name: Atom, arguments: u32) -> Result<(), NoMemory>
        requires some { 0 < arguments }
        requires few { arguments ≤ 65535 }
        ensures { (s : sheets.TermOutput) → IsOutputOf self.old s → OnOk result (IsOutputOf self.new (emit_cell s (Functor name arguments))) }
    {
        self.emit(Cell::Functor(name, arguments))
    }

    /// Puts the list of the last terms, so many items and a tail.
    pub(crate) fn list(&mut self, alloc: Global, items: usize) -> Result<(), NoMemory>
        ensures { (s : sheets.TermOutput) → IsOutputOf self.old s → OnOk result (IsOutputOf self.new (emit_lists items s)) }
    {
        let name = Atom::ascii(alloc, ".")?;
        for i in 0..items {
            let again = name.share()?;
            self.compound(again, 2)?;
        }
        Ok(())
    }

    /// Puts the codes of a text's characters, and answers how many.
    fn each_code(&mut self, text: &str) -> Result<usize, NoMemory>
        ensures { (s : sheets.TermOutput) → IsOutputOf self.old s → IfOk result (λ n. (n ≡ length (chars text.now)) × IsOutputOf self.new (emit_codes s (chars text.now))) }
    {
        let mut items: usize = 0;
        for c in text.chars() {
            let Some(more) = items.checked_add(1) else {
                return Err(NoMemory);
            };
            self.emit(Cell::Int(code_of(c)))?;
            items = more;
        }
        Ok(items)
    }

    /// Puts a text's characters, each as an atom, and answers how many.
    fn each_char(&mut self, alloc: Global, text: &str) -> Result<usize, NoMemory>
        ensures { (s : sheets.TermOutput) → IsOutputOf self.old s → IfOk result (λ n. (n ≡ length (chars text.now)) × IsOutputOf self.new (emit_chars s (chars text.now))) }
    {
        let mut items: usize = 0;
        for c in text.chars() {
            let Some(more) = items.checked_add(1) else {
                return Err(NoMemory);
            };
            let name = char_atom(alloc, c)?;
            self.emit(Cell::Atom(name))?;
            items = more;
        }
        Ok(items)
    }

    /// Puts the list of the codes of a text's characters.
    fn codes(&mut self, alloc: Global, text: &str) -> Result<(), NoMemory>
        ensures { (s : sheets.TermOutput) → IsOutputOf self.old s → OnOk result (IsOutputOf self.new (emit_tree s (code_list (chars text.now)))) }
    {
        let items = self.each_code(text)?;
        self.nil(alloc)?;
        self.list(alloc, items)
    }

    /// Puts the list of a text's characters, each as an atom.
    fn chars(&mut self, alloc: Global, text: &str) -> Result<(), NoMemory>
        ensures { (s : sheets.TermOutput) → IsOutputOf self.old s → OnOk result (IsOutputOf self.new (emit_tree s (char_list (chars text.now)))) }
    {
        let items = self.each_char(alloc, text)?;
        self.nil(alloc)?;
        self.list(alloc, items)
    }

    /// The one term, and the named variables.
    pub(crate) fn finish(self, alloc: Global) -> Result<(FlatTerm, Vec<VarName>), NoMemory>
        requires { (t : Tree) × IsOutputOf self (emit_tree no_cells t) }
        ensures { (t : Tree) → IsOutputOf self (emit_tree no_cells t) → IfOk result (λ r. (r.0 ≡ (numbered no_variables t).0) × (map variable_meant r.1.items ≡ (numbered no_variables t).1.named)) }
    {
        let TermOutput { cells, variables } = self;
        let turned = prefix_order(alloc, cells)?;
        let term = FlatTerm::from_cells(turned)?;
        Ok((term, variables.names()))
    }
}

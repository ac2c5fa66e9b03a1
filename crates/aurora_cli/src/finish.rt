//! The program's end.
ghost use Rattle.std.specs.Prelude.{◌≡◌};
ghost use Rattle.au_io.specs.FaultCounts.{Appended, AppendedPrefix};
ghost use Rattle.run_model.specs.Machine.Status.{status_of};
ghost use Rattle.aurora_cli.specs.Endings.{IsNotIncreased};
ghost use Rattle.aurora_cli.specs.Notes.{note_of};

use crate::note::note_line;
use au_io::Sink;
use run_model::{Ending, code};

/// Writes the note of an ending, and answers the status. A note that cannot be written changes no status.
pub fn finish<K: Sink>(out: &mut K, ending: &Ending) -> u8
    ensures status { result ≡ status_of ending.now }
    ensures prefix { AppendedPrefix (K.taken out.old) (K.taken out.new) (note_of ending.now) }
    ensures note { IsNotIncreased (K.faults out.old) (K.faults out.new) → Appended (K.taken out.old) (K.taken out.new) (note_of ending.now) }
{
    let mut line = [0; 160];
    let length = note_line(ending, &mut line);
    let _ = out.write_all(&line[..length]);
    code(ending)
}

#[cfg(test)]
mod tests {
    use super::*;
    use au_io::MemorySink;
    use std::test::Fail;

    /// An ending, its status, and its note.
    type Row = (Ending, u8, &'static str);

    static ROWS: [Row; 5] = [
        (Ending::Finished, 0, ""),
        (Ending::Halted(3), 3, ""),
        (Ending::Budget, 67, "aurora: stopped at the budget\n"),
        (Ending::ReadFault, 66, "aurora: the text can't be read\n"),
        (Ending::NoMemory, 69, "aurora: out of memory\n"),
    ];

    #[test]
    fn notes_and_statuses(rt: HostRuntime) -> Result<(), Fail> {
        let alloc = rt.alloc();
        for (ending, status, note) in &ROWS {
            let mut whole = MemorySink::new(alloc, 99)?;
            assert_eq!(rt; finish(&mut whole, ending), *status);
            assert!(rt; whole.taken() == note.as_bytes(), "{note}");
            let mut narrow = MemorySink::new(alloc, 8)?;
            assert_eq!(rt; finish(&mut narrow, ending), *status);
            assert_eq!(rt; narrow.taken().len(), note.len().min(8));
        }
        Ok(())
    }
}

//! The note that the program prints of its ending.
ghost use Rattle.std.specs.Prelude.{◌≡◌, ◌≤◌, ◌+◌, ◌++◌, length, take};
ghost use Rattle.aurora_cli.specs.Notes.{kind_text, note_of, refused_note};

use au_model::FaultKind;
use itoa::Buffer;
use run_model::Ending;

/// Puts the note for an ending in front of the line, and answers its number of bytes: 0 where the run ended by itself,
/// else those of one line with its end.
pub fn note_line(ending: &Ending, line: &mut [u8; 160]) -> usize
    ensures note { take result line.new ≡ note_of ending.now }
    ensures fits { result ≤ 160 }
{
    match ending {
        Ending::Finished | Ending::Halted(_) => 0,
        Ending::Budget => put(line, 0, b"aurora: stopped at the budget\n"),
        Ending::Refused {
            line: row,
            column,
            kind,
        } => put_refused(line, *row, *column, *kind),
        Ending::TooLong => put(line, 0, b"aurora: the text has more than 16777216 bytes\n"),
        Ending::Usage(_) => put(line, 0, b"aurora: usage: aurora FILE BUDGET\n"),
        Ending::ReadFault => put(line, 0, b"aurora: the text can't be read\n"),
        Ending::WriteFault => put(line, 0, b"aurora: the output can't be written\n"),
        Ending::NoMemory => put(line, 0, b"aurora: out of memory\n"),
    }
}

/// Puts the note for a text's fault in front.
fn put_refused(line: &mut [u8; 160], row: u32, column: u32, kind: FaultKind) -> usize
    ensures note { take result line.new ≡ refused_note row column kind }
    ensures fits { result ≤ 160 }
{
    let mut buffer = Buffer::new();
    let at = put(line, 0, b"aurora: line ");
    let at = put(line, at, buffer.format(row).as_bytes());
    let at = put(line, at, b", column ");
    let at = put(line, at, buffer.format(column).as_bytes());
    let at = put(line, at, b": ");
    let at = put(line, at, text_of(kind).as_bytes());
    put(line, at, b"\n")
}

/// Puts bytes after the first ones of a line, and answers how many there are then.
fn put(line: &mut [u8; 160], at: usize, bytes: &[u8]) -> usize
    requires { at + length bytes.now ≤ 160 }
    ensures len { result ≡ at + length bytes.now }
    ensures text { take result line.new ≡ take at line.old ++ bytes.now }
{
    let end = at + bytes.len();
    line[at..end].copy_from_slice(bytes);
    end
}

/// What a note says of a kind of fault.
fn text_of(kind: FaultKind) -> &'static str
    ensures text { result.now ≡ kind_text kind }
    ensures short { length result.now ≤ 30 }
{
    match kind {
        FaultKind::NotUtf8 => "not UTF-8",
        FaultKind::BadCharacter => "character not allowed",
        FaultKind::BadEscape => "bad escape",
        FaultKind::UnclosedQuote => "quote not closed",
        FaultKind::UnclosedComment => "comment not closed",
        FaultKind::FloatNumeral => "floating-point numeral",
        FaultKind::WideNumeral => "numeral too wide",
        FaultKind::TooManyArguments => "too many arguments",
        FaultKind::UnexpectedToken => "unexpected token",
        FaultKind::UnexpectedEnd => "unexpected end",
        FaultKind::BadClause => "not a clause",
        FaultKind::BadDirective => "not a directive",
        FaultKind::StaticTwice => "dynamic after clauses",
        FaultKind::Unbuilt => "form not built yet",
    }
}

//! The note lines. A line is put in pieces, so that it takes no memory.

ghost use Rattle.std.specs.Prelude.{◌≡◌, ◌≤◌, [], ◌∷◌, map, codes, decimal};
ghost use Rattle.std.specs.List.{concat};
ghost use Rattle.simit_io.specs.Inputs.{Rose};
ghost use Rattle.run_notes.specs.Limits as spec;
ghost use Rattle.run_notes.specs.Named.{named_by};
ghost use Rattle.run_notes.specs.Notes.{PutsNote, cell_note, cell_words, file_note, kind_words, lexical_words, line_note, memory_note, note_of, offset_of, place_note, refusal_note, row_note, stop_note, table_note, trap_note, trap_words, usage_note, write_fault_note};
ghost use Rattle.vocabulary.specs.declared.limits.TheConstants.{MOST_ELEMENTS};
ghost use Rattle.dense_sizes.specs.declared.limit.TheConstants.{MOST_DENSE_WORDS};

use crate::failure::{Failure, Refusal};
use crate::named::{file_name, only_name, turns_of};
use crate::role::{FileRole, limit_of};
use algebra_meaning::Stop;
use command_words::Words;
use dense_sizes::MOST_DENSE_WORDS;
use itoa::Buffer;
use ring_words::{CellFault, TrapKind};
use set_tables::TableFault;
use sim_lexer::LexFault;
use simit_io::{Sink, put_all, putting_law};
use type_rules::TypeKind;
use vocabulary::limits::MOST_ELEMENTS;

/// Puts pieces one after another, up to the first that the sink doesn't take whole.
fn put_pieces<N: Sink>(notes: &mut N, pieces: &[&str])
    ensures note { PutsNote (N.written notes.old) (N.written notes.new) (Rose (N.faults notes.old) (N.faults notes.new)) (concat (map (λ p. p.now) pieces.now)) }
    ensures counted { N.faults notes.old ≤ N.faults notes.new }
{
    putting_law();
    for piece in pieces {
        if put_all(notes, piece.as_bytes()).is_err() {
            return;
        }
    }
}

/// Puts a line of three pieces.
fn put_three<'a, N: Sink>(notes: &mut N, a: &'a str, b: &'a str, c: &'a str)
    ensures note { PutsNote (N.written notes.old) (N.written notes.new) (Rose (N.faults notes.old) (N.faults notes.new)) (concat (a.now ∷ b.now ∷ c.now ∷ [])) }
    ensures counted { N.faults notes.old ≤ N.faults notes.new }
{
    put_pieces(notes, &[a, b, c]);
}

/// Puts a line of five pieces.
fn put_five<'a, N: Sink>(notes: &mut N, a: &'a str, b: &'a str, c: &'a str, d: &'a str, e: &'a str)
    ensures note { PutsNote (N.written notes.old) (N.written notes.new) (Rose (N.faults notes.old) (N.faults notes.new)) (concat (a.now ∷ b.now ∷ c.now ∷ d.now ∷ e.now ∷ [])) }
    ensures counted { N.faults notes.old ≤ N.faults notes.new }
{
    put_pieces(notes, &[a, b, c, d, e]);
}

/// Puts the line of a file with too many bytes.
fn put_limit<N: Sink>(notes: &mut N, name: &str, role: FileRole)
    ensures note { PutsNote (N.written notes.old) (N.written notes.new) (Rose (N.faults notes.old) (N.faults notes.new))
        (concat (codes "limit: " ∷ name.now ∷ codes " is over " ∷ decimal (spec.limit_of role) ∷ codes " bytes\n" ∷ [])) }
    ensures counted { N.faults notes.old ≤ N.faults notes.new }
{
    let mut limit = Buffer::new();
    put_five(
        notes,
        "limit: ",
        name,
        " is over ",
        limit.format(limit_of(role)),
        " bytes\n",
    );
}

/// Puts the line of another number of tables than of sets.
fn put_file_count<N: Sink>(notes: &mut N, files: usize, sets: usize)
    ensures note { PutsNote (N.written notes.old) (N.written notes.new) (Rose (N.faults notes.old) (N.faults notes.new))
        (concat (codes "refused: " ∷ decimal files ∷ codes " files for " ∷ decimal sets ∷ codes " sets\n" ∷ [])) }
    ensures counted { N.faults notes.old ≤ N.faults notes.new }
{
    let mut of_files = Buffer::new();
    let mut of_sets = Buffer::new();
    put_five(
        notes,
        "refused: ",
        of_files.format(files),
        " files for ",
        of_sets.format(sets),
        " sets\n",
    );
}

/// Puts the line of a place in a program's text: its line, and the byte or token.
fn put_place<'a, N: Sink>(notes: &mut N, line: u32, unit: &'a str, place: u32, words: &'a str)
    ensures note { PutsNote (N.written notes.old) (N.written notes.new) (Rose (N.faults notes.old) (N.faults notes.new)) (place_note line unit.now place words.now) }
    ensures counted { N.faults notes.old ≤ N.faults notes.new }
{
    let mut of_line = Buffer::new();
    let mut of_place = Buffer::new();
    put_five(
        notes,
        "refused: line ",
        of_line.format(line),
        unit,
        of_place.format(place),
        words,
    );
}

/// The offset that a lexical fault names.
pub fn offset_of(fault: LexFault) -> u32
    ensures { result ≡ offset_of fault }
{
    match fault {
        LexFault::BadByte { at }
        | LexFault::LongName { at }
        | LexFault::TooMany { at }
        | LexFault::TooDeep { at } => at,
        LexFault::Memory => 0,
    }
}

/// What is wrong at a byte of a program's text.
fn lexical_words(fault: LexFault) -> &'static str
    ensures { result.now ≡ lexical_words fault }
{
    match fault {
        LexFault::BadByte { .. } => ": bad byte\n",
        LexFault::LongName { .. } => ": long name\n",
        LexFault::TooMany { .. } => ": too many tokens\n",
        LexFault::TooDeep { .. } => ": too deep\n",
        LexFault::Memory => ": no memory\n",
    }
}

/// Why a node has no type.
fn kind_words(kind: TypeKind) -> &'static str
    ensures { result.now ≡ kind_words kind }
{
    match kind {
        TypeKind::Unknown => ": unknown name\n",
        TypeKind::Twice => ": declared twice\n",
        TypeKind::NotConstant => ": not a constant\n",
        TypeKind::NotAPlace => ": not a place\n",
        TypeKind::Shape => ": shape\n",
        TypeKind::Set => ": set\n",
        TypeKind::Scale => ": scale\n",
        TypeKind::TooLarge => ": too large\n",
    }
}

/// Puts the line of a line of a program's text.
fn put_line<'a, N: Sink>(notes: &mut N, line: u32, words: &'a str)
    ensures note { PutsNote (N.written notes.old) (N.written notes.new) (Rose (N.faults notes.old) (N.faults notes.new)) (line_note line words.now) }
    ensures counted { N.faults notes.old ≤ N.faults notes.new }
{
    let mut of_line = Buffer::new();
    put_three(notes, "refused: line ", of_line.format(line), words);
}

/// Puts the line of words that are no command.
pub fn put_usage<N: Sink>(notes: &mut N)
    ensures note { PutsNote (N.written notes.old) (N.written notes.new) (Rose (N.faults notes.old) (N.faults notes.new)) usage_note }
    ensures counted { N.faults notes.old ≤ N.faults notes.new }
{
    put_pieces(
        notes,
        &["usage: simit run|plan|plain PROGRAM SETS.. or simit make SEED N\n"],
    );
}

/// Puts the line of a table with more rows than a set may have elements.
fn put_too_many_rows<N: Sink>(notes: &mut N, file: &str)
    ensures note { PutsNote (N.written notes.old) (N.written notes.new) (Rose (N.faults notes.old) (N.faults notes.new)) (file_note file.now (codes ": more than " ∷ decimal MOST_ELEMENTS ∷ codes " rows\n" ∷ [])) }
    ensures counted { N.faults notes.old ≤ N.faults notes.new }
{
    let mut most = Buffer::new();
    put_five(
        notes,
        "refused: ",
        file,
        ": more than ",
        most.format(MOST_ELEMENTS),
        " rows\n",
    );
}

/// Puts the line of a row of another width.
fn put_width<N: Sink>(notes: &mut N, file: &str, row: u32)
    ensures note { PutsNote (N.written notes.old) (N.written notes.new) (Rose (N.faults notes.old) (N.faults notes.new)) (row_note file.now row (codes ": width\n" ∷ [])) }
    ensures counted { N.faults notes.old ≤ N.faults notes.new }
{
    let mut of_row = Buffer::new();
    put_five(
        notes,
        "refused: ",
        file,
        " row ",
        of_row.format(row),
        ": width\n",
    );
}

/// Puts the line of a cell of a table.
fn put_in_cell<'a, N: Sink>(notes: &mut N, file: &'a str, row: u32, column: u32, words: &'a str)
    ensures note { PutsNote (N.written notes.old) (N.written notes.new) (Rose (N.faults notes.old) (N.faults notes.new)) (cell_note file.now row column (words.now ∷ [])) }
    ensures counted { N.faults notes.old ≤ N.faults notes.new }
{
    let mut of_row = Buffer::new();
    let mut of_column = Buffer::new();
    put_pieces(
        notes,
        &[
            "refused: ",
            file,
            " row ",
            of_row.format(row),
            ", column ",
            of_column.format(column),
            words,
        ],
    );
}

/// Puts the line of a cell with a bad byte.
fn put_bad_byte<N: Sink>(notes: &mut N, file: &str, row: u32, column: u32, offset: u32)
    ensures note { PutsNote (N.written notes.old) (N.written notes.new) (Rose (N.faults notes.old) (N.faults notes.new)) (cell_note file.now row column (codes ": bad byte at " ∷ decimal offset ∷ codes "\n" ∷ [])) }
    ensures counted { N.faults notes.old ≤ N.faults notes.new }
{
    let mut of_row = Buffer::new();
    let mut of_column = Buffer::new();
    let mut of_offset = Buffer::new();
    put_pieces(
        notes,
        &[
            "refused: ",
            file,
            " row ",
            of_row.format(row),
            ", column ",
            of_column.format(column),
            ": bad byte at ",
            of_offset.format(offset),
            "\n",
        ],
    );
}

/// Puts the line of a cell that states no word.
fn put_cell_fault<N: Sink>(notes: &mut N, file: &str, row: u32, column: u32, fault: CellFault)
    ensures note { PutsNote (N.written notes.old) (N.written notes.new) (Rose (N.faults notes.old) (N.faults notes.new)) (cell_note file.now row column (cell_words fault)) }
    ensures counted { N.faults notes.old ≤ N.faults notes.new }
{
    match fault {
        CellFault::Empty => put_in_cell(notes, file, row, column, ": empty cell\n"),
        CellFault::BadByte { at } => put_bad_byte(notes, file, row, column, at),
        CellFault::TooFine => put_in_cell(notes, file, row, column, ": too many decimals\n"),
        CellFault::TooLarge => put_in_cell(notes, file, row, column, ": too large\n"),
    }
}

/// Puts the line of a table that states no set of its schema.
fn put_table_fault<N: Sink>(notes: &mut N, file: &str, fault: TableFault)
    ensures note { PutsNote (N.written notes.old) (N.written notes.new) (Rose (N.faults notes.old) (N.faults notes.new)) (table_note file.now fault) }
    ensures counted { N.faults notes.old ≤ N.faults notes.new }
{
    match fault {
        TableFault::NoHeader => put_three(notes, "refused: ", file, ": no header\n"),
        TableFault::Header { column } => put_in_cell(notes, file, 0, column, ": header\n"),
        TableFault::Width { row } => put_width(notes, file, row),
        TableFault::Cell { row, column, fault } => put_cell_fault(notes, file, row, column, fault),
        TableFault::Endpoint { row, column } => {
            put_in_cell(notes, file, row, column, ": no such endpoint\n");
        }
        TableFault::TooManyRows => put_too_many_rows(notes, file),
        TableFault::Memory => put_three(notes, "refused: ", file, ": no memory\n"),
    }
}

/// Puts the line of dense matrices with too many words.
fn put_dense_words<N: Sink>(notes: &mut N)
    ensures note { PutsNote (N.written notes.old) (N.written notes.new) (Rose (N.faults notes.old) (N.faults notes.new))
        (concat (codes "limit: dense words over " ∷ decimal MOST_DENSE_WORDS ∷ codes "\n" ∷ [])) }
    ensures counted { N.faults notes.old ≤ N.faults notes.new }
{
    let mut most = Buffer::new();
    put_three(
        notes,
        "limit: dense words over ",
        most.format(MOST_DENSE_WORDS),
        "\n",
    );
}

/// Why a run traps.
fn trap_words(kind: TrapKind) -> &'static str
    ensures { result.now ≡ trap_words kind }
{
    match kind {
        TrapKind::DivisionByZero => ": division by zero\n",
        TrapKind::NegativeRoot => ": root of a negative number\n",
        TrapKind::Assertion => ": assertion failed\n",
    }
}

/// Puts the line of a trap.
fn put_trap<N: Sink>(notes: &mut N, line: u32, element: Option<u32>, kind: TrapKind)
    ensures note { PutsNote (N.written notes.old) (N.written notes.new) (Rose (N.faults notes.old) (N.faults notes.new)) (trap_note line element kind) }
    ensures counted { N.faults notes.old ≤ N.faults notes.new }
{
    let words = trap_words(kind);
    let mut of_line = Buffer::new();
    let line = of_line.format(line);
    match element {
        None => put_three(notes, "trap at line ", line, words),
        Some(element) => {
            let mut of_element = Buffer::new();
            let element = of_element.format(element);
            put_five(notes, "trap at line ", line, ", element ", element, words);
        }
    }
}

/// Puts the line of turns that are spent.
fn put_spent<N: Sink>(notes: &mut N, turns: u32)
    ensures note { PutsNote (N.written notes.old) (N.written notes.new) (Rose (N.faults notes.old) (N.faults notes.new))
        (concat (codes "spent: " ∷ decimal turns ∷ codes " turns\n" ∷ [])) }
    ensures counted { N.faults notes.old ≤ N.faults notes.new }
{
    let mut of_turns = Buffer::new();
    put_three(notes, "spent: ", of_turns.format(turns), " turns\n");
}

/// Puts the line of a run that stops before its end.
fn put_stop<N: Sink>(notes: &mut N, turns: u32, stop: Stop)
    ensures note { PutsNote (N.written notes.old) (N.written notes.new) (Rose (N.faults notes.old) (N.faults notes.new)) (stop_note turns stop) }
    ensures counted { N.faults notes.old ≤ N.faults notes.new }
{
    match stop {
        Stop::Trap {
            line,
            element,
            kind,
        } => put_trap(notes, line, element, kind),
        Stop::Spent => put_spent(notes, turns),
    }
}

/// Puts the line of a refusal.
fn put_refusal<N: Sink>(notes: &mut N, words: &Words, refusal: Refusal)
    ensures note { PutsNote (N.written notes.old) (N.written notes.new) (Rose (N.faults notes.old) (N.faults notes.new)) (refusal_note (named_by words.now) refusal) }
    ensures counted { N.faults notes.old ≤ N.faults notes.new }
{
    match refusal {
        Refusal::Words => put_usage(notes),
        Refusal::NotYet => put_pieces(notes, &["refused: not yet\n"]),
        Refusal::FileLimit(role) => put_limit(notes, file_name(words, role), role),
        Refusal::Lexical { line, fault } => put_place(
            notes,
            line,
            ", byte ",
            offset_of(fault),
            lexical_words(fault),
        ),
        Refusal::Syntax { line, token } => {
            put_place(notes, line, ", token ", token, ": syntax\n");
        }
        Refusal::NotAChain { line } => put_line(notes, line, ": not a chain\n"),
        Refusal::IllTyped { line, kind } => put_line(notes, line, kind_words(kind)),
        Refusal::NoSuchSet => put_three(notes, "refused: no set ", only_name(words), "\n"),
        Refusal::FileCount { files, sets } => put_file_count(notes, files, sets),
        Refusal::Table { set, fault } => {
            put_table_fault(notes, file_name(words, FileRole::Table(set)), fault);
        }
        Refusal::DenseWords => put_dense_words(notes),
        Refusal::Stopped(stop) => put_stop(notes, turns_of(words), stop),
    }
}

/// Puts the line of a call that ran out of memory, as far as the sink takes it.
pub fn put_memory<N: Sink>(notes: &mut N)
    ensures note { PutsNote (N.written notes.old) (N.written notes.new) (Rose (N.faults notes.old) (N.faults notes.new)) memory_note }
    ensures counted { N.faults notes.old ≤ N.faults notes.new }
{
    put_pieces(notes, &["no memory\n"]);
}

/// Puts the note line of an answer that is no output, as far as the sink takes it.
pub fn put_note<N: Sink>(notes: &mut N, words: &Words, failure: Failure)
    ensures note { PutsNote (N.written notes.old) (N.written notes.new) (Rose (N.faults notes.old) (N.faults notes.new)) (note_of (named_by words.now) failure) }
    ensures counted { N.faults notes.old ≤ N.faults notes.new }
{
    match failure {
        Failure::Memory => put_memory(notes),
        Failure::ReadFault(role) => put_three(notes, "read fault: ", file_name(words, role), "\n"),
        Failure::Refused(refusal) => put_refusal(notes, words, refusal),
    }
}

/// Puts the note line of an output that can't be put whole, as far as the sink takes it.
pub fn put_write_fault<N: Sink>(notes: &mut N)
    ensures note { PutsNote (N.written notes.old) (N.written notes.new) (Rose (N.faults notes.old) (N.faults notes.new)) write_fault_note }
    ensures counted { N.faults notes.old ≤ N.faults notes.new }
{
    put_pieces(notes, &["write fault\n"]);
}

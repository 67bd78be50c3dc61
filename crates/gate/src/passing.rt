// Whether a grammar, a note and a working space come to a reading, or why not.
ghost use Rattle.std.specs.Prelude.{◌≡◌, replicate};
ghost use Rattle.grammar.specs.inside.Tables.{table_words};
ghost use Rattle.derivation.specs.inside.Ready.{Ready};
ghost use Rattle.gate.specs.inside.Passing.{NoteGated, Gated};

use crate::reading::ReadingRefusal;

// The most tokens of a note.
pub const MAX_TOKENS: usize = 128;

// The words of working space that a reading asks for: so many, and so many for each place of the grammar and position of the note.
pub const SPACE_WORDS: usize = 8192;

pub const SPACE_WORDS_EACH: usize = 8;

// 8, 9 and 11, for the tables of a sound grammar.
pub fn note_gate(tables: &[u16], note: &[u16], space: usize) -> Result<(), ReadingRefusal>
    requires { Ready tables.now }
    ensures { NoteGated tables.now note.now space result }
{
    if MAX_TOKENS < note.len() {
        return Err(ReadingRefusal::LongNote);
    }
    if let Some(at) = crate::tokens::first_unknown(note, grammar::kinds(tables)) {
        return Err(ReadingRefusal::UnknownToken(at));
    }
    let places = grammar::size(tables);
    if space < SPACE_WORDS + SPACE_WORDS_EACH * (places * (note.len() + 1)) {
        return Err(ReadingRefusal::ShortWorkspace);
    }
    Ok(())
}

// 1 to 7, and then 8, 9 and 11. Where the gate is passed, the tables, which come in as zeros, hold the grammar.
pub fn pass(
    grammar: &[u8],
    note: &[u16],
    space: usize,
    tables: &mut [u16],
) -> Result<(), ReadingRefusal>
    requires { tables.old ≡ replicate table_words 0 }
    ensures { Gated grammar.now note.now space tables.new result }
{
    soundness::compile(grammar, tables)?;
    note_gate(tables, note, space)
}

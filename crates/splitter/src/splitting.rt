// A typed line and a lent list: the line's kinds, or why not.
ghost use Rattle.std.specs.Prelude.{◌≡◌, ◌++◌, ◌-◌, ◌≤◌, length, take, replicate};
ghost use Rattle.splitter.specs.Classes.{classes};
ghost use Rattle.splitter.specs.inside.Index.{words_at};
ghost use Rattle.splitter.specs.Contract.{splitting_number, splitting_place, splitting_count, SplitDid};
ghost use Rattle.splitter.specs.Splitting.{split_answer, from16};

use crate::words::Words;

// The most bytes of a line.
pub const MAX_LINE: usize = 512;

// What splitting a line answers.
#[derive(Clone, Copy)]
pub enum Splitting {
    // The line is split: so many entries of the row are its kinds.
    Split(usize),
    // 15: the line has more than 512 bytes.
    LongLine,
    // 17: the list is anything but words with single blanks between, has more than 66, or one twice.
    BadList,
    // 16: a foreign byte, the first.
    Foreign(usize),
    // 8: more than 128 tokens.
    LongNote,
    // 14: more tokens than entries of the row.
    ShortRow,
}

impl Splitting {
    // The scope's number: 0 where the line was split.
    pub fn number(self) -> u32
        ensures { result ≡ splitting_number self }
    {
        match self {
            Splitting::Split(_) => 0,
            Splitting::LongLine => 15,
            Splitting::BadList => 17,
            Splitting::Foreign(_) => 16,
            Splitting::LongNote => 8,
            Splitting::ShortRow => 14,
        }
    }

    // The scope's place: 0 where none is named.
    pub fn place(self) -> usize
        ensures { result ≡ splitting_place self }
    {
        match self {
            Splitting::Split(_) => 0,
            Splitting::LongLine => 0,
            Splitting::BadList => 0,
            Splitting::Foreign(at) => at,
            Splitting::LongNote => 0,
            Splitting::ShortRow => 0,
        }
    }

    // The tokens of the line: 0 where refused.
    pub fn count(self) -> usize
        ensures { result ≡ splitting_count self }
    {
        match self {
            Splitting::Split(count) => count,
            Splitting::LongLine => 0,
            Splitting::BadList => 0,
            Splitting::Foreign(_) => 0,
            Splitting::LongNote => 0,
            Splitting::ShortRow => 0,
        }
    }
}

// The first kinds into a row, and zeros behind them.
fn put(kinds: &[u16], count: usize, row: &mut [u16])
    requires { (count ≤ length kinds.now) × (count ≤ length row.old) }
    ensures { row.new ≡ take count kinds.now ++ replicate (length row.old - count) 0 }
{
    row[..count].copy_from_slice(&kinds[..count]);
    row[count..].fill(0);
}

// Splits a line by a good list: 16, 8 and 14.
fn split_by(table: &[u8], line: &[u8], words: &Words, tokens: &mut [u16]) -> Splitting
    requires { table.now ≡ classes }
    ensures { split_answer (splitting_number result) (splitting_place result) (splitting_count result) tokens.new
        ≡ from16 line.now tokens.old (words_at words.now.list.now words.now.starts words.now.count) }
{
    if let Some(at) = crate::cutting::first_foreign(table, line) {
        return Splitting::Foreign(at);
    }
    let mut kinds = [0u16; crate::cutting::MAX_TOKENS];
    let Some(k) = crate::cutting::cut(table, line, words, &mut kinds) else {
        return Splitting::LongNote;
    };
    if tokens.len() < k {
        base::clear_from(tokens, 0);
        return Splitting::ShortRow;
    }
    put(&kinds, k, tokens);
    Splitting::Split(k)
}

// Splits a typed line. The row then holds the kinds and zeros behind them; after 14 it is all zeros; after any other refusal it is as it was.
pub fn split(line: &[u8], words: &[u8], tokens: &mut [u16]) -> Splitting
    ensures { SplitDid line.now words.now tokens.old
        (splitting_number result) (splitting_place result) (splitting_count result) tokens.new }
{
    if MAX_LINE < line.len() {
        return Splitting::LongLine;
    }
    let table = crate::classes::CLASSES;
    let mut listed = crate::words::none(words);
    if !crate::listing::index(&table, &mut listed) {
        return Splitting::BadList;
    }
    split_by(&table, line, &listed, tokens)
}

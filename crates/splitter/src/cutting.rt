// The items of a line: each as long as it can be, and its kind.
ghost use Rattle.std.specs.Prelude.{◌≡◌, ◌<◌, length, drop};
ghost use Rattle.splitter.specs.Classes.{classes};
ghost use Rattle.splitter.specs.Items.{max_split, first_foreign};
ghost use Rattle.splitter.specs.inside.Index.{words_at};
ghost use Rattle.splitter.specs.inside.Cut.{scan_of, item_in, CutDid};

use crate::words::Words;

// The most tokens of a line.
pub const MAX_TOKENS: usize = 128;

// The kind of a number.
const NUMBER: u16 = 2;

// One item: its kind and its end.
#[derive(Clone, Copy)]
pub struct Item {
    pub kind: u16,
    pub end: usize,
}

// The first byte of the class foreign.
pub fn first_foreign(table: &[u8], line: &[u8]) -> Option<usize>
    requires { table.now ≡ classes }
    ensures { result ≡ scan_of (first_foreign line.now) }
{
    line.iter().position(|b| crate::classes::class(table, *b) == crate::classes::FOREIGN)
}

// The item that begins at a byte that is no blank.
fn item_at(table: &[u8], line: &[u8], at: usize, words: &Words) -> Item
    requires { (at < length line.now) × (table.now ≡ classes) }
    ensures { result ≡ item_in (words_at words.now.list.now words.now.starts words.now.count) at (drop at line.now) }
{
    let b = line[at];
    let class = crate::classes::class(table, b);
    if class == crate::classes::LETTER {
        let run = crate::runs::word_run(table, line, at);
        let word = &line[at..run.end];
        let kind = words.kind_of(word, run.bucket);
        return Item {
            kind: base::narrow(kind),
            end: run.end,
        };
    }
    if class == crate::classes::DIGIT {
        let end = crate::runs::number_end(table, line, at);
        return Item { kind: NUMBER, end };
    }
    Item {
        kind: u16::from(crate::classes::mark_kind(b)),
        end: at + 1,
    }
}

// The kinds of a line's items, one after the other: how many, or nothing where there are more than MAX_TOKENS.
pub fn cut(table: &[u8], line: &[u8], words: &Words, kinds: &mut [u16]) -> Option<usize>
    requires { (length kinds.old ≡ max_split) × (table.now ≡ classes) }
    ensures { CutDid (words_at words.now.list.now words.now.starts words.now.count) line.now result kinds.new }
{
    let n = line.len();
    let mut i = 0;
    let mut k = 0;
    // an item is as long as it can be, so that no `for` counts the turns
    while i < n {
        if crate::classes::class(table, line[i]) == crate::classes::BLANK {
            i += 1;
        } else {
            if MAX_TOKENS <= k {
                return None;
            }
            let item = item_at(table, line, i, words);
            kinds[k] = item.kind;
            k += 1;
            i = item.end;
        }
    }
    Some(k)
}

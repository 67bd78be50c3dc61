// The lent list: whether it is one, and its words.
ghost use Rattle.std.specs.Prelude.{◌≡◌, replicate};
ghost use Rattle.splitter.specs.Classes.{classes};
ghost use Rattle.splitter.specs.inside.Index.{start_count, link_count};
ghost use Rattle.splitter.specs.inside.Listed.{IndexDid, ListingDid};

use crate::words::Words;
pub use crate::words::{FIRST_LISTED, LINKS, MAX_WORDS, STARTS, WORD};

// Reads the list of these words, of which there are none yet: whether it is one, and its words then. They are made where they stay: a row of them that is
// answered is moved, which short lines feel.
pub fn index(table: &[u8], words: &mut Words) -> bool
    requires { (words.old.count ≡ 0) × (words.old.starts ≡ replicate start_count 0) × (words.old.links ≡ replicate link_count 0) × (table.now ≡ classes) }
    ensures { IndexDid words.old.list.now words.new result }
{
    let list = words.list;
    if list.len() == 0 {
        return true;
    }
    let mut at = 0;
    // a word is as long as it can be, so that no `for` counts the turns
    while at < list.len() {
        if crate::classes::class(table, list[at]) != crate::classes::LETTER {
            return false;
        }
        if MAX_WORDS <= words.count {
            return false;
        }
        let run = crate::runs::word_run(table, list, at);
        let word = &list[at..run.end];
        let kind = words.kind_of(word, run.bucket);
        if kind != WORD {
            return false;
        }
        words.add(at, run);
        if run.end == list.len() {
            return true;
        }
        if list[run.end] != crate::classes::SPACE {
            return false;
        }
        at = run.end + 1;
    }
    false
}

// Reads a list: its words, or nothing where it is none.
pub fn words_of<'a>(table: &[u8], list: &'a [u8]) -> Option<Words<'a>>
    requires { table.now ≡ classes }
    ensures { ListingDid list.now result }
{
    let mut words = crate::words::none(list);
    if index(table, &mut words) {
        Some(words)
    } else {
        None
    }
}

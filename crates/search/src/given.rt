// What a search reads, beside its words.
use crate::words::Size;

// The tables of a grammar, what may start with a token and what it may follow, a note, and the sizes of the two.
#[derive(Clone, Copy)]
pub struct Search<'a> {
    pub tables: &'a [u16],
    pub masks: &'a [u32],
    pub note: &'a [u16],
    pub size: Size,
}

// A grammar in tables of 16-bit words, and the places in it: what each faces, and whose production it is in.
#![tactic(auto)]

ghost use Rattle.std.specs.Prelude.{◌≡◌, suc, ◌+◌, ◌≤◌, ◌<◌, length, get_or};
ghost use Rattle.grammar.specs.Grammar.{place_at, facing, admits, alternatives};
ghost use Rattle.grammar.specs.inside.Tables.{codes, word_of, symbol_of, place_of, grammar_in, nonterminals_in, rule_at, table_words};
ghost use Rattle.grammar.specs.inside.Tables.{corner_row, with_corners, TablesFit};
ghost use Rattle.grammar.specs.Limits.{max_nonterminals};
ghost use Rattle.grammar.specs.Decode.{written};

mod production;

pub use production::{Symbols, symbols_from};

// The limits of a grammar: the highest token kind, nonterminals, productions of a nonterminal, symbols of a production, places of all productions.
// specs/Limits has the same.
pub const MAX_KINDS: usize = 100;

pub const MAX_NONTERMINALS: usize = 32;

pub const MAX_PRODUCTIONS: usize = 16;

pub const MAX_LENGTH: usize = 30;

pub const MAX_PLACES: usize = 255;

// The place behind the start symbol, where the end mark is due; it is the last that the tables hold.
pub const END_PLACE: usize = MAX_PLACES;

// The owner of places that belong to no production.
const NOBODY: usize = MAX_NONTERMINALS;

// The tables: one word for each place, END_PLACE included; the first place of each production; for each nonterminal the number of its first
// production, and behind the last nonterminal the number of all; then the number of kinds, of nonterminals and of places; and for each nonterminal the
// set of its left corners, which the check works out. specs/Tables has the same.
pub const FIRSTS: usize = END_PLACE + 1;

pub const RULES: usize = FIRSTS + MAX_PLACES;

pub const KINDS: usize = RULES + MAX_NONTERMINALS + 1;

pub const NONTERMINALS: usize = KINDS + 1;

pub const SIZE: usize = NONTERMINALS + 1;

pub const CORNERS: usize = SIZE + 1;

pub const TABLE_WORDS: usize = CORNERS + 2 * MAX_NONTERMINALS;

// A row of corners has 32 bits: the low half in one word, the high one in the next.
const HALF: usize = 65536;

// The word of a place: its symbol's code is below CODES, its owner below OWNERS. specs/Tables has the same.
pub const CODES: usize = 256;

const OWNERS: usize = 64;

// What turns an owner so that nobody is 0.
const TURN: usize = OWNERS - NOBODY;

// What a place faces: a token, a nonterminal, or its production's end.
#[derive(Clone, Copy)]
pub enum Symbol {
    Token(usize),
    Nonterminal(usize),
    End,
}

// A place: the nonterminal in whose production it stands, and the symbol that it faces.
#[derive(Clone, Copy)]
pub struct Place {
    pub owner: usize,
    pub symbol: Symbol,
}

// The symbol of a code: 0 is a production's end, every other code is one more than the symbol as written in the grammar.
fn symbol_of(code: usize) -> Symbol
    ensures { result ≡ symbol_of code }
{
    if code == 0 {
        return Symbol::End;
    }
    if code % 2 == 1 {
        Symbol::Token(code / 2)
    } else {
        Symbol::Nonterminal(code / 2 - 1)
    }
}

// The place of a word: the symbol's code in the low bits, the owner above them, counted round from nobody, so that a word 0 is nobody's.
pub fn place_of(word: u16) -> Place
    ensures { result ≡ place_of word }
{
    let w = usize::from(word);
    Place {
        owner: (w / CODES + NOBODY) % OWNERS,
        symbol: symbol_of(w % CODES),
    }
}

// The word of a place of `owner` that faces the symbol written as v.
pub fn symbol_word(owner: usize, v: usize) -> u16
    requires { suc v < codes }
    ensures { result ≡ word_of (record { owner = owner; symbol = written v }) }
{
    base::narrow(v + 1 + (owner % OWNERS + TURN) % OWNERS * CODES)
}

// The word of a place at the end of a production of `owner`.
pub fn end_word(owner: usize) -> u16
    ensures { result ≡ word_of (record { owner = owner; symbol = Symbol.End }) }
{
    base::narrow((owner % OWNERS + TURN) % OWNERS * CODES)
}

// Place p. Behind the end place there is none: there a production's end is faced, and nobody owns it.
pub fn place_at(tables: &[u16], p: usize) -> Place
    requires { length tables.now ≡ table_words }
    ensures { result ≡ place_at (grammar_in tables.now) p }
{
    if END_PLACE < p {
        return place_of(0);
    }
    place_of(tables[p])
}

// The code of the symbol that place p faces: 0 for a production's end, odd for a token, 2 b + 2 for nonterminal b. Behind the end place an end is faced.
pub fn code_at(tables: &[u16], p: usize) -> usize
    requires { length tables.now ≡ table_words }
    ensures { symbol_of result ≡ facing (grammar_in tables.now) p }
{
    if END_PLACE < p {
        return 0;
    }
    usize::from(tables[p]) % CODES
}

// How many nonterminals there are.
pub fn nonterminals(tables: &[u16]) -> usize
    requires { length tables.now ≡ table_words }
    ensures { result ≡ nonterminals_in tables.now }
{
    usize::from(tables[NONTERMINALS])
}

// The highest token kind.
pub fn kinds(tables: &[u16]) -> usize
    requires { length tables.now ≡ table_words }
    ensures { result ≡ (grammar_in tables.now).kinds }
{
    usize::from(tables[KINDS])
}

// How many places the productions have.
pub fn size(tables: &[u16]) -> usize
    requires { length tables.now ≡ table_words }
    ensures { result ≡ (grammar_in tables.now).size }
{
    usize::from(tables[SIZE])
}

// Where in the tables the first places of the productions of nonterminal a begin, and where those of the one before it end.
pub fn rule_at(tables: &[u16], a: usize) -> usize
    requires { (a ≤ max_nonterminals) × (length tables.now ≡ table_words) }
    ensures { result ≡ rule_at tables.now a }
{
    FIRSTS + usize::from(tables[RULES + a])
}

// The first place of the production whose word stands at k in the tables.
pub fn first_place(tables: &[u16], k: usize) -> usize
    requires { (k < table_words) × (length tables.now ≡ table_words) }
    ensures { result ≡ get_or tables.now k 0 }
{
    usize::from(tables[k])
}

// The first places of the productions of nonterminal a.
pub fn first_places(tables: &[u16], a: usize) -> &[u16]
    requires { TablesFit tables.now × (a < nonterminals_in tables.now) }
    ensures { result.now ≡ alternatives (grammar_in tables.now) a }
{
    &tables[rule_at(tables, a)..rule_at(tables, a + 1)]
}

// The row of left corners that the tables hold for nonterminal a.
pub fn corner_row(tables: &[u16], a: usize) -> u32
    requires { (a < max_nonterminals) × (length tables.now ≡ table_words) }
    ensures { result ≡ corner_row tables.now a }
{
    let at = CORNERS + 2 * a;
    let low = usize::from(tables[at]);
    let high = usize::from(tables[at + 1]);
    base::word(low + high * HALF)
}

// Puts the row of left corners of nonterminal a into the tables.
pub fn put_corners(tables: &mut [u16], a: usize, row: u32)
    requires { (a < max_nonterminals) × (length tables.old ≡ table_words) }
    ensures { tables.new ≡ with_corners tables.old a row }
{
    let at = CORNERS + 2 * a;
    let corners = base::number(row);
    tables[at] = base::narrow(corners % HALF);
    tables[at + 1] = base::narrow(corners / HALF);
}

// Whether a token may stand where a kind is called for.
pub fn admits(tables: &[u16], kind: usize, token: usize) -> bool
    ensures { result ≡ admits (grammar_in tables.now) kind token }
{
    kind == token
}

// Delivery notes read by ALL(*), every call proved. A grammar is a row of bytes that says which rows of numbered tokens are sentences; a note is such a row.
//
//   check(grammar)                                 whether the grammar is sound
//   measure(grammar)                               the same, and of a sound grammar its kinds, nonterminals and places, by which working space is lent
//   plain(grammar, note, row, workspace)           the note's derivation into the row, or a refusal
//   begin(grammar, cache)                          a lookahead cache for the grammar
//   quick(grammar, note, row, cache, workspace)    the same answer as `plain`, always, and faster the more the cache has learned
//   batch(grammar, tokens, lengths, answers, row, cache, workspace)
//                                                  up to 64 notes one after another, each as `quick` reads it, with its part of the row
//   audit(grammar, cache)                          whether the cache, whoever wrote its words, may be trusted for the grammar; it is only looked at
//   split(line, words, tokens)                     the tokens of a typed line into the row `tokens`, or a refusal; the words of a list have kinds of their own
//
// Nobody has to check anything before a call: bytes, notes and caches may be anything, and every call looks at all it needs itself. Nothing is stored but
// in what is lent. A derivation is the leftmost one that takes, at each step, the lowest alternative from which the whole rest of the note can still be
// derived; the row gets the alternatives taken, counted from 1, in order, and zeros behind them.
//
// Every call but `split` answers a `Result`, whose refusals are an enum with a case for each; a reading's `Ok` is the number of the row's entries, and a
// measure's the sizes. `number()` and `place()` of `Numbered` give answers and refusals as numbers, those of a splitting beside its `count()` (a batch gets
// number, place and count of its notes in its answers):
//
//   0    accepted                                             8    more than 128 tokens in the note
//   1    the bytes end before the grammar does                9    a token that the grammar does not know, at place
//   2    a number that is malformed                           10   no sentence: the token, or the end, at place is allowed by none
//   3    a limit is broken                                    11   workspace shorter than 8,192 + 8 * places * (tokens + 1) words
//   4    a symbol that does not exist                         12   cache shorter than 2,368 words
//   5    bytes behind the grammar                             13   cache not begun for this grammar at this length
//   6    a nonterminal that derives no row of tokens          14   a sentence whose derivation is longer than the row
//   7    a left recursive nonterminal                         15   more than 512 bytes in the line
//                                                             16   a foreign byte in the line, the first at place
//                                                             17   a list that is anything but words with single blanks between, or has more than 66, or
//                                                                  one of them twice
//                                                             18   a batch of no notes or more than 64, whose lengths do not add up to the tokens, whose
//                                                                  answers are not three a note, or whose row does not divide evenly
//                                                             19   a no of the audit: the cache is laid out otherwise, a decision holds two equal states, or
//                                                                  something is recorded that the learning rules do not give
//
// A batch is lent the tokens of all notes, one note behind the other, the length of each note, three answers for each note, one note's behind the other's,
// which take its number, place and count, and a row that is cut into equal parts, one for each note.
//
// Grammars and notes are refused with the first that applies of 1 to 5, 7, 6, 8, 9, 11, 12, 13, 10, 14, lines with that of 15, 17, 16, 8, 14, batches
// with that of 1 to 5, 7, 6, 18, caches that are audited with that of 1 to 5, 7, 6, 12, 13, 19; 8 to 14 are answers of single notes of a batch, and none
// of them stops the next note.
//
// After 10 and 14 the row is all zeros and the cache keeps what it learned; every other refusal leaves row and cache as they were. A line that makes more
// tokens than a note may have is refused with 8, one that makes more than the row has entries with 14.
//
// `quick` and `batch` answer as `plain` does over a cache that `begin` began and only they wrote since. Over words that another program wrote they do so
// after a yes of `audit`, for the same grammar at the same length; without one their answers can be wrong, and nothing else.
//
// A note of so many tokens by a grammar of so many places takes SPACE_WORDS + SPACE_WORDS_EACH * places * (tokens + 1) words of workspace; a cache of so
// many slots has FIXED_WORDS + SLOT_WORDS * slots words, at least MIN_WORDS, and no more than MAX_SLOTS slots are used.
#![tactic(auto)]

pub use audit::{AuditRefusal, audit};
pub use batch::{BatchRefusal, MAX_NOTES, batch};
pub use cache::{BeginningRefusal, begin};
pub use gate::{MAX_TOKENS, ReadingRefusal, SPACE_WORDS, SPACE_WORDS_EACH};
pub use measuring::{Sizes, measure};
pub use number::{Numbered, Refusal};
pub use plain::plain;
pub use quick::quick;
pub use soundness::check;
pub use splitter::{MAX_LINE, Splitting, split};
pub use words::layout::{FIXED_WORDS, MAX_SLOTS, MIN_WORDS, SLOT_WORDS};

// The sizes and addresses of a cache's words; specs/Layout has the same, with what each is for.

// The words before the slots.
pub const FIXED_WORDS: usize = 2048;

// The words of a slot before its configurations, and all of them.
pub const SLOT_HEAD: usize = 128;

pub const SLOT_WORDS: usize = SLOT_HEAD + configurations::CONFIG_WORDS * configurations::KEPT;

// The slots that are used of a long cache.
pub const MAX_SLOTS: usize = 1024;

// The shortest cache: one slot.
pub const MIN_WORDS: usize = FIXED_WORDS + SLOT_WORDS;

// The length, in two words; how many grammar bytes there are; how many states are held.
pub const LENGTH_AT: usize = 1;

pub const LENGTH_HIGH_AT: usize = LENGTH_AT + 1;

pub const BYTE_COUNT_AT: usize = LENGTH_AT + 2;

pub const HELD_AT: usize = BYTE_COUNT_AT + 1;

// The start of decision 0, and the first grammar bytes.
pub const STARTS_AT: usize = 32;

pub const BYTES_AT: usize = STARTS_AT + grammar::MAX_NONTERMINALS;

// In a slot, behind its decision: how many configurations it keeps, and the step over token 0.
pub const COUNT_AT: usize = 1;

pub const STEPS_AT: usize = COUNT_AT + 1;

// The outcomes that are no alternative: FULL, and state 0.
pub const FULL: u32 = grammar::MAX_PRODUCTIONS as u32 + 1;

pub const STATES: usize = FULL as usize + 1;

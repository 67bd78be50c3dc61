// Masks in words: for each kind of token, the end mark first, the set of the nonterminals that may start with it and the set of those that it may follow;
// behind them all the set of those that derive the empty row.
ghost use Rattle.std.specs.Prelude.{◌≡◌, ◌≤◌, ◌<◌, length, get_or};
ghost use Rattle.grammar.specs.Limits.{max_kinds, max_nonterminals};
ghost use Rattle.first_follow.specs.inside.Words.{nullable_at, mask_words, masks_in};

// Where the set of those that derive the empty row stands.
pub const NULLABLE: usize = 2 * (grammar::MAX_KINDS + 1);

// The words of all masks. specs/Words has the same.
pub const MASK_WORDS: usize = NULLABLE + 1;

// Whether nonterminal a may start with token t.
pub fn starts(masks: &[u32], t: usize, a: usize) -> bool
    requires { (t ≤ max_kinds) × (a < max_nonterminals) × (length masks.now ≡ mask_words) }
    ensures { result ≡ (masks_in masks.now).starts t a }
{
    base::has(masks[2 * t], a)
}

// Whether token t may follow nonterminal a.
pub fn follows(masks: &[u32], t: usize, a: usize) -> bool
    requires { (t ≤ max_kinds) × (a < max_nonterminals) × (length masks.now ≡ mask_words) }
    ensures { result ≡ (masks_in masks.now).follows t a }
{
    base::has(masks[2 * t + 1], a)
}

// Whether nonterminal a may be empty before token t.
pub fn empty(masks: &[u32], t: usize, a: usize) -> bool
    requires { (t ≤ max_kinds) × (a < max_nonterminals) × (length masks.now ≡ mask_words) }
    ensures { result ≡ (masks_in masks.now).empty t a }
{
    base::has(masks[2 * t + 1] & masks[NULLABLE], a)
}

// The nonterminals that derive the empty row.
pub fn nullable(masks: &[u32]) -> u32
    requires { length masks.now ≡ mask_words }
    ensures { result ≡ get_or masks.now nullable_at 0 }
{
    masks[NULLABLE]
}

// FIRST and FOLLOW of every kind of token, from what stands next to what.
ghost use Rattle.std.specs.Prelude.{◌≡◌, false, suc, ◌≤◌, length, get_or, replicate};
ghost use Rattle.grammar.specs.Limits.{max_kinds};
ghost use Rattle.grammar.specs.inside.Tables.{grammar_in};
ghost use Rattle.closures.specs.inside.Steps.{DerivingIs};
ghost use Rattle.derivation.specs.inside.Ready.{Ready};
ghost use Rattle.first_follow.specs.inside.Words.{nullable_at, mask_words, masks_in, Exact};
ghost use Rattle.first_follow.specs.inside.Steps.{Marking, Kind, Kinds, Related};

// FIRST of kind t: those that have it in front, and those that may begin with one of them. FOLLOW: those that it stands behind, directly or as what a
// nonterminal may start with, and those that may stand last in one of them.
fn mark_kind(masks: &mut [u32], t: usize, above: &[u32], before: &[u32], last: &[u32])
    requires { (t ≤ max_kinds)
        × Marking (record { masks = masks.now; above = above.now; before = before.now; last = last.now }) }
    ensures { (length masks.new ≡ mask_words) × Kind (record {
      masks = masks.old;
      above = above.now;
      before = before.now;
      last = last.now;
    }) t masks.new }
{
    let front = masks[2 * t];
    let starts = crate::joining::joined(above, front, front);
    let behind = crate::joining::joined(before, starts, masks[2 * t + 1]);
    masks[2 * t] = starts;
    masks[2 * t + 1] = crate::joining::joined(last, behind, behind);
}

// The same of each kind up to `kinds`.
fn mark_kinds(masks: &mut [u32], kinds: usize, above: &[u32], before: &[u32], last: &[u32])
    requires { (kinds ≤ max_kinds)
        × Marking (record { masks = masks.now; above = above.now; before = before.now; last = last.now }) }
    ensures { (length masks.new ≡ mask_words) × Kinds (record {
      masks = masks.old;
      above = above.now;
      before = before.now;
      last = last.now;
    }) (suc kinds) masks.new }
{
    for t in 0..kinds + 1 {
        mark_kind(masks, t, above, before, last);
    }
}

// FIRST and FOLLOW of every kind, from what stands next to what and how far that carries.
fn relate(tables: &[u16], nullable: u32, masks: &mut [u32])
    requires { Ready tables.now × DerivingIs false (grammar_in tables.now) nullable × (masks.old ≡ replicate mask_words 0) }
    ensures { (length masks.new ≡ mask_words) × Related (grammar_in tables.now) masks.new }
{
    let n = grammar::nonterminals(tables);
    let mut above = [0u32; grammar::MAX_NONTERMINALS];
    let mut before = [0u32; grammar::MAX_NONTERMINALS];
    let mut last = [0u32; grammar::MAX_NONTERMINALS];
    crate::gathering::gather(tables, nullable, masks, &mut above, &mut before, &mut last);
    masks[1] = base::with(masks[1], 0);
    corners::reach(&mut above, n);
    corners::reach(&mut last, n);
    let kinds = grammar::kinds(tables);
    mark_kinds(masks, kinds, &above, &before, &last);
}

// Puts FIRST and FOLLOW of a checked grammar into words that are all 0.
pub fn mark(tables: &[u16], masks: &mut [u32])
    requires { Ready tables.now × (masks.old ≡ replicate mask_words 0) }
    ensures { Exact (grammar_in tables.now) (masks_in masks.new) × (length masks.new ≡ mask_words)
        × DerivingIs false (grammar_in tables.now) (get_or masks.new nullable_at 0) }
{
    let nullable = corners::nullable(tables);
    relate(tables, nullable, masks);
    masks[crate::reading::NULLABLE] = nullable;
}

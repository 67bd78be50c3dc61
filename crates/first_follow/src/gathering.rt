// What stands next to what: one pass over the places of all productions, which stand one behind the other.
ghost use Rattle.std.specs.Prelude.{◌≡◌, false, cond, ◌≤◌, ◌<◌, length};
ghost use Rattle.base.specs.Bits.{set_bit};
ghost use Rattle.grammar.specs.Limits.{max_kinds, max_nonterminals};
ghost use Rattle.grammar.specs.inside.Tables.{grammar_in};
ghost use Rattle.closures.specs.inside.Steps.{DerivingIs};
ghost use Rattle.derivation.specs.inside.Ready.{Ready};
ghost use Rattle.first_follow.specs.inside.Words.{mask_words};
ghost use Rattle.first_follow.specs.inside.Steps.{Gathered, added_of, member_of, token_of};

use grammar::Symbol;

// The set, with a if `yes`.
fn with_if(set: u32, a: usize, yes: bool) -> u32
    requires { a < max_nonterminals }
    ensures { result ≡ cond yes (set_bit set a) set }
{
    if yes { base::with(set, a) } else { set }
}

// Token k stands in a production of `owner`, in front if `lead`, and right behind the nonterminals of `ahead`.
fn note_token(masks: &mut [u32], k: usize, owner: usize, lead: bool, ahead: u32)
    requires { (k ≤ max_kinds) × (owner < max_nonterminals) × (length masks.old ≡ mask_words) }
    ensures { masks.new ≡ token_of k owner lead ahead masks.old }
{
    masks[2 * k] = with_if(masks[2 * k], owner, lead);
    masks[2 * k + 1] = masks[2 * k + 1] | ahead;
}

// Nonterminal b stands in a production of `owner`, in front if `lead`, and right behind the nonterminals of `ahead`.
fn note_call(above: &mut [u32], before: &mut [u32], b: usize, owner: usize, lead: bool, ahead: u32)
    requires { (b < max_nonterminals) × (owner < max_nonterminals) × (length above.old ≡ max_nonterminals) × (length before.old ≡ max_nonterminals) }
    ensures { (above.new ≡ member_of b owner lead above.old) × (before.new ≡ added_of b ahead before.old) }
{
    above[b] = with_if(above[b], owner, lead);
    before[b] = before[b] | ahead;
}

// A production of `owner` ends right behind the nonterminals of `ahead`.
fn note_end(last: &mut [u32], owner: usize, ahead: u32)
    requires { (owner < max_nonterminals) × (length last.old ≡ max_nonterminals) }
    ensures { last.new ≡ added_of owner ahead last.old }
{
    last[owner] = last[owner] | ahead;
}

// What the places of all productions say, nonterminals that derive the empty row not counted: for each kind, in the two words of its masks, those that have
// it in front and those that stand right before it; for each nonterminal the same, in `above` and `before`, and those that stand last in it, in `last`. At a
// place, `lead` says that it stands in front, and `ahead` holds the nonterminals right before it.
pub fn gather(
    tables: &[u16],
    nullable: u32,
    masks: &mut [u32],
    above: &mut [u32],
    before: &mut [u32],
    last: &mut [u32],
)
    requires { Ready tables.now × DerivingIs false (grammar_in tables.now) nullable
        × Gathered (grammar_in tables.now) 0 (record { masks = masks.now; above = above.old; before = before.old; last = last.old }) }
    ensures { Gathered (grammar_in tables.now) (grammar_in tables.now).size
        (record { masks = masks.new; above = above.new; before = before.new; last = last.new }) }
{
    let size = grammar::size(tables);
    let mut ahead = 0;
    let mut lead = true;
    for p in 0..size {
        let place = grammar::place_at(tables, p);
        let owner = place.owner;
        match place.symbol {
            Symbol::End => {
                note_end(last, owner, ahead);
                ahead = 0;
                lead = true;
            }
            Symbol::Token(k) => {
                note_token(masks, k, owner, lead, ahead);
                ahead = 0;
                lead = false;
            }
            Symbol::Nonterminal(b) => {
                note_call(above, before, b, owner, lead, ahead);
                if base::has(nullable, b) {
                    ahead = base::with(ahead, b);
                } else {
                    ahead = base::with(0, b);
                    lead = false;
                }
            }
        }
    }
}

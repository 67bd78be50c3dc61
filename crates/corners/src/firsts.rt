// What stands first in productions: by it alone most nonterminals are told that derive the empty row, and most left corners.
ghost use Rattle.std.specs.Prelude.{◌≡◌, false, length, replicate};
ghost use Rattle.grammar.specs.Limits.{max_nonterminals};
ghost use Rattle.grammar.specs.inside.Tables.{grammar_in, nonterminals_in, TablesFit};
ghost use Rattle.closures.specs.inside.Steps.{DerivingIs};
ghost use Rattle.corners.specs.inside.Steps.{FirstsAre, Found};

// What stands first in all productions, as sets of nonterminals: those with an empty production, and those with a production that begins with a nonterminal.
#[derive(Clone, Copy)]
struct Firsts {
    empty: u32,
    led: u32,
}

// The nonterminals that derive the empty row, and those with a production that begins with a nonterminal.
#[derive(Clone, Copy)]
pub struct HeadSets {
    pub nullable: u32,
    pub led: u32,
}

impl Firsts {
    // The nonterminals that derive the empty row. Without an empty production there is none.
    fn nullable(self, tables: &[u16], rows: &[u32]) -> u32
        requires { TablesFit tables.now × (length rows.now ≡ max_nonterminals)
            × FirstsAre (grammar_in tables.now) (nonterminals_in tables.now) self.empty self.led rows.now }
        ensures { DerivingIs false (grammar_in tables.now) result }
    {
        if self.empty == 0 {
            return 0;
        }
        closures::nullable(tables, rows, self.led, self.empty)
    }
}

// What stands first in all productions: the sets, and for each nonterminal the row of the nonterminals that its productions begin with. The first places of
// productions stand one behind the other in the tables, and the place itself says whose it is: one of MAX_NONTERMINALS, which the remainder tells the
// compiler. A production that begins with a token, as most do, adds nothing; its code is enough to tell.
fn all_firsts(tables: &[u16], rows: &mut [u32]) -> Firsts
    requires { TablesFit tables.now × (rows.old ≡ replicate max_nonterminals 0) }
    ensures { FirstsAre (grammar_in tables.now) (nonterminals_in tables.now) result.empty result.led rows.new }
{
    let n = grammar::nonterminals(tables);
    let end = grammar::rule_at(tables, n);
    let mut empty = 0;
    let mut led = 0;
    for k in grammar::FIRSTS..end {
        let first = grammar::first_place(tables, k);
        let code = grammar::code_at(tables, first);
        if code % 2 == 0 {
            let place = grammar::place_at(tables, first);
            let a = place.owner % grammar::MAX_NONTERMINALS;
            if code == 0 {
                empty = base::with(empty, a);
            } else {
                led = base::with(led, a);
                rows[a] = base::with(rows[a], code / 2 - 1);
            }
        }
    }
    Firsts { empty, led }
}

// The nonterminals that derive the empty row, those that are led by a nonterminal, and in the rows, which come in as zeros, for each nonterminal those that
// stand first in its productions.
pub fn heads(tables: &[u16], rows: &mut [u32]) -> HeadSets
    requires { TablesFit tables.now × (rows.old ≡ replicate max_nonterminals 0) }
    ensures { Found tables.now result.nullable result.led rows.new }
{
    let firsts = all_firsts(tables, rows);
    HeadSets {
        nullable: firsts.nullable(tables, rows),
        led: firsts.led,
    }
}

// The nonterminals that derive the empty row, alone. The check has `heads` to itself: called from one place, it becomes part of the check's own code.
pub fn nullable(tables: &[u16]) -> u32
    requires { TablesFit tables.now }
    ensures { DerivingIs false (grammar_in tables.now) result }
{
    let mut rows = [0u32; grammar::MAX_NONTERMINALS];
    all_firsts(tables, &mut rows).nullable(tables, &rows)
}

// Moves: where one leads from each nonterminal. These left corners are worked out from what stands first in productions, and stay in the tables.
ghost use Rattle.std.specs.Prelude.{◌<◌};
ghost use Rattle.grammar.specs.Grammar.{suffix};
ghost use Rattle.grammar.specs.inside.Tables.{grammar_in, nonterminals_in, TablesFit};
ghost use Rattle.corners.specs.inside.Steps.{LeadsTo, MovesFrom, Widening, Widened};
ghost use Rattle.corners.specs.inside.Ending.{Settled};

use grammar::Symbol;

// The set `from` with every nonterminal that stands from place `first` on behind only nullable ones.
fn left_from(tables: &[u16], nullable: u32, first: usize, from: u32) -> u32
    requires { TablesFit tables.now }
    ensures { LeadsTo nullable from (suffix (grammar_in tables.now) first) result }
{
    let mut set = from;
    for symbol in grammar::symbols_from(tables, first) {
        let Symbol::Nonterminal(b) = symbol else {
            return set;
        };
        set = base::with(set, b);
        if !base::has(nullable, b) {
            return set;
        }
    }
    set
}

// The nonterminals that one move leads to from a.
fn moves(tables: &[u16], nullable: u32, a: usize) -> u32
    requires { TablesFit tables.now × (a < nonterminals_in tables.now) }
    ensures { MovesFrom nullable (grammar_in tables.now) a result }
{
    let mut set = 0;
    for first in grammar::first_places(tables, a) {
        set = left_from(tables, nullable, usize::from(*first), set);
    }
    set
}

// Where one move leads from nonterminal a, by the row of what stands first in its productions: it leads to more only if something of that vanishes.
fn widened(tables: &[u16], nullable: u32, a: usize, row: u32) -> u32
    requires { TablesFit tables.now × (a < nonterminals_in tables.now) × MovesFrom 0 (grammar_in tables.now) a row }
    ensures { MovesFrom nullable (grammar_in tables.now) a result }
{
    if row & nullable == 0 {
        return row;
    }
    moves(tables, nullable, a)
}

// The left corners of each nonterminal, where one move leads from it, for the rows of what stands first. They go into the tables too, where an empty row
// stands already. Answers nonterminals from which moves end: those without a move, and each whose moves lead only to such, the last first, which is mostly
// the order in which grammars build on each other.
pub fn corners(tables: &mut [u16], nullable: u32, led: u32, rows: &mut [u32]) -> u32
    requires { Widening tables.old nullable led rows.old }
    ensures { Widened tables.old rows.new tables.new × Settled rows.new result }
{
    let n = grammar::nonterminals(tables);
    let mut done = base::below(n) & base::opposite(led);
    for a in (0..n).rev() {
        let first = rows[a];
        if first != 0 {
            let row = widened(tables, nullable, a, first);
            rows[a] = row;
            grammar::put_corners(tables, a, row);
            if base::subset(row, done) {
                done = base::with(done, a);
            }
        }
    }
    done
}

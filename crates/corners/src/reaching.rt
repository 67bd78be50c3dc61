// Where one or more moves lead, for grammars with moves that do not end.
ghost use Rattle.std.specs.Prelude.{◌≡◌, cond, ◌≤◌, ◌<◌, length};
ghost use Rattle.std.specs.Int.Bits.{bit_or};
ghost use Rattle.base.specs.Bits.{test_bit};
ghost use Rattle.grammar.specs.Limits.{max_nonterminals};
ghost use Rattle.corners.specs.inside.Steps.{Joining, pivot_below, reach_of};

// A row joined by `row` if it holds b. There is a word to store in both cases, so that the compiler joins several rows at once.
fn joined(held: u32, b: usize, row: u32) -> u32
    requires { b < max_nonterminals }
    ensures { result ≡ cond (test_bit held b) (bit_or held row) held }
{
    if base::has(held, b) { held | row } else { held }
}

// Every row that holds b is joined by the row of b, `row`.
fn through(rows: &mut [u32], n: usize, row: u32, b: usize)
    requires { Joining n b rows.old }
    ensures { rows.new ≡ pivot_below row b n rows.old }
{
    for a in 0..n {
        rows[a] = joined(rows[a], b, row);
    }
}

// Where one or more moves lead (Warshall: through the first nonterminal, then also through the next, and so on). An empty row joins nothing.
pub fn reach(rows: &mut [u32], n: usize)
    requires { (n ≤ max_nonterminals) × (length rows.old ≡ max_nonterminals) }
    ensures { rows.new ≡ reach_of n n rows.old }
{
    for b in 0..n {
        let row = rows[b];
        if row != 0 {
            through(rows, n, row, b);
        }
    }
}

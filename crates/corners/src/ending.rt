// Where moves come to an end, known without a closure: if every move, but for those of a nonterminal to itself, leads to a nonterminal from which moves
// end, the only left recursion is of one move. A round judges every nonterminal by the same set, so that the compiler judges several at once.
ghost use Rattle.std.specs.Prelude.{◌≡◌, true, ◌≤◌, ◌<◌, length};
ghost use Rattle.grammar.specs.Limits.{max_nonterminals};
ghost use Rattle.corners.specs.inside.Ending.{Ending, AllEnd, ended_of, ended_below};

// So many rounds settle most grammars; deeper ones are left to `reach`.
const ROUNDS: usize = 8;

// The set of a alone if each member of its row is a or in the set, else the empty set.
fn ended(row: u32, a: usize, set: u32) -> u32
    requires { a < max_nonterminals }
    ensures { result ≡ ended_of row a set }
{
    if base::subset(row, base::with(set, a)) {
        base::with(0, a)
    } else {
        0
    }
}

// The nonterminals of the first n from which every move leads to themselves or into the set.
fn round(rows: &[u32], n: usize, set: u32) -> u32
    requires { (n ≤ max_nonterminals) × (length rows.now ≡ max_nonterminals) }
    ensures { result ≡ ended_below rows.now set n }
{
    let mut next = 0;
    for (a, row) in rows[..n].iter().enumerate() {
        next = next | ended(*row, a, set);
    }
    next
}

// Whether a few rounds show that moves end from each of the first n nonterminals. From those of `from` they are known to end.
pub fn all_end(rows: &[u32], n: usize, from: u32) -> bool
    requires { (n ≤ max_nonterminals) × (length rows.now ≡ max_nonterminals) × Ending rows.now from }
    ensures { result ≡ true → AllEnd rows.now n }
{
    let all = base::below(n);
    let mut set = from;
    for _ in 0..ROUNDS {
        let next = round(rows, n, set);
        if next == all {
            return true;
        }
        if next == set {
            return false;
        }
        set = next;
    }
    false
}

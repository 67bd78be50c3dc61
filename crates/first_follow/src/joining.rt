// Rows of sets, one for each nonterminal, joined for the members of a set.
ghost use Rattle.std.specs.Prelude.{◌≡◌, length};
ghost use Rattle.grammar.specs.Limits.{max_nonterminals};
ghost use Rattle.first_follow.specs.inside.Steps.{Joined};

// The set `from`, joined by the rows of the members of `set`.
pub fn joined(rows: &[u32], set: u32, from: u32) -> u32
    requires { length rows.now ≡ max_nonterminals }
    ensures { Joined rows.now set from result }
{
    let mut all = from;
    for x in base::members(set) {
        all = all | rows[x];
    }
    all
}

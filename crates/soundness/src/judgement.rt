// The check itself, and what readings use of it: a grammar judged, and compiled into tables.
ghost use Rattle.std.specs.Prelude.{◌≡◌, false, not, ◌≤◌, length, get_or, replicate};
ghost use Rattle.base.specs.Bits.{test_bit};
ghost use Rattle.base.specs.Search.{lowest_from};
ghost use Rattle.grammar.specs.Limits.{max_nonterminals};
ghost use Rattle.grammar.specs.inside.Tables.{grammar_in, TablesFit, Bare, table_words};
ghost use Rattle.closures.specs.inside.Steps.{DerivingIs};
ghost use Rattle.corners.specs.inside.Steps.{Widening};
ghost use Rattle.soundness.specs.Check.{refuse_at, unproductive_of, left_recursive_of, judge_of, verdict_number, verdict_place, CheckDid};
ghost use Rattle.soundness.specs.inside.Compiled.{Judgement, Compiled};
ghost use Rattle.soundness.specs.inside.Own.{OwnIs};

use number::{Read, Refusal};

// The lowest nonterminal of the first n that is missing from the set.
fn lowest_missing(set: u32, n: usize) -> Result<(), Refusal>
    requires { n ≤ max_nonterminals }
    ensures { result ≡ refuse_at Refusal.Unproductive (lowest_from (λ a. not (test_bit set a)) 0 n) }
{
    for a in 0..n {
        if !base::has(set, a) {
            return Err(Refusal::Unproductive(a));
        }
    }
    Ok(())
}

// The nonterminals of the first n whose row holds them.
fn own(rows: &[u32], n: usize) -> u32
    requires { (n ≤ max_nonterminals) × (length rows.now ≡ max_nonterminals) }
    ensures { OwnIs rows.now n result }
{
    let mut set = 0;
    for a in 0..n {
        set |= rows[a] & base::with(0, a);
    }
    set
}

// The lowest nonterminal of the first n whose row holds it. All rows are looked at, since hardly any grammar has one: no turn of the loop has to ask.
fn lowest_own(rows: &[u32], n: usize) -> Result<(), Refusal>
    requires { (n ≤ max_nonterminals) × (length rows.now ≡ max_nonterminals) }
    ensures { result ≡ refuse_at Refusal.LeftRecursive (lowest_from (λ a. test_bit (get_or rows.now a 0) a) 0 n) }
{
    let set = own(rows, n);
    if set == 0 {
        return Ok(());
    }
    Err(Refusal::LeftRecursive(base::number(u32::trailing_zeros(set))))
}

// Refusal 6. Those that derive the empty row are known. Where all are productive, as in most grammars, none is looked for.
fn unproductive(tables: &[u16], nullable: u32) -> Result<(), Refusal>
    requires { TablesFit tables.now × DerivingIs false (grammar_in tables.now) nullable }
    ensures { result ≡ unproductive_of (grammar_in tables.now) }
{
    let productive = closures::productive(tables, nullable);
    let n = grammar::nonterminals(tables);
    if productive == base::below(n) {
        return Ok(());
    }
    lowest_missing(productive, n)
}

// Refusal 7. The rows come with what stands first in productions, and become the left corners, which stay in the tables. Of most grammars all moves are seen
// to end while they do; of most others a few rounds tell what is left recursive; what is left needs the closure.
fn left_recursive(
    tables: &mut [u16],
    nullable: u32,
    led: u32,
    rows: &mut [u32],
) -> Result<(), Refusal>
    requires { Widening tables.old nullable led rows.old }
    ensures { Judgement result (left_recursive_of (grammar_in tables.old)) tables.old tables.new }
{
    let n = grammar::nonterminals(tables);
    let done = corners::corners(tables, nullable, led, rows);
    if done == base::below(n) {
        return Ok(());
    }
    if corners::all_end(rows, n, done) {
        return lowest_own(rows, n);
    }
    corners::reach(rows, n);
    lowest_own(rows, n)
}

// 7, and then 6.
fn judge(tables: &mut [u16]) -> Result<(), Refusal>
    requires { TablesFit tables.old × Bare tables.old }
    ensures { Judgement result (judge_of (grammar_in tables.old)) tables.old tables.new }
{
    let mut rows = [0u32; grammar::MAX_NONTERMINALS];
    let heads = corners::heads(tables, &mut rows);
    let nullable = heads.nullable;
    left_recursive(tables, nullable, heads.led, &mut rows)?;
    unproductive(tables, nullable)
}

// Checks a grammar, and leaves it compiled in tables, which come in as zeros.
pub fn compile(bytes: &[u8], tables: &mut [u16]) -> Result<(), Refusal>
    requires { tables.old ≡ replicate table_words 0 }
    ensures { Compiled bytes.now result tables.new }
{
    let answer = reader::read_grammar(bytes, tables);
    match answer {
        Read::Refused(r, _) => Err(r),
        Read::Value(_, _) => judge(tables),
    }
}

// Whether a grammar is sound, or why not.
pub fn check(grammar: &[u8]) -> Result<(), Refusal>
    ensures { CheckDid grammar.now (verdict_number result) (verdict_place result) }
{
    let mut tables = [0u16; grammar::TABLE_WORDS];
    compile(grammar, &mut tables)
}

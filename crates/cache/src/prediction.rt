// Predictions: from the start of a decision over the tokens that are left, as long as there is a state to step from. The words that record outcomes are
// known here and below, and to nobody above.
ghost use Rattle.std.specs.Prelude.{◌≡◌, ◌≤◌, ◌<◌, drop};
ghost use Rattle.grammar.specs.inside.Tables.{grammar_in, nonterminals_in};
ghost use Rattle.derivation.specs.Runs.{marked};
ghost use Rattle.derivation.specs.inside.Ready.{Ready};
ghost use Rattle.words.specs.Layout.{full_word};
ghost use Rattle.cache.specs.inside.Calls.{Predictable};
ghost use Rattle.cache.specs.inside.Following.{Says};
ghost use Rattle.cache.specs.Predictor.{predicted};
ghost use Rattle.cache.specs.Predict.{predict};

// What a word says that tells no state: one of nonterminal a's alternatives, or none, which is FULL.
fn forecast_of(tables: &[u16], a: usize, said: u32) -> Option<usize>
    requires { Ready tables.now × (a < nonterminals_in tables.now) × (said ≤ full_word) }
    ensures { Says (grammar_in tables.now) a said result }
{
    let b = base::number(said);
    if b == 0 {
        return None;
    }
    if derivation::alternatives(tables, a) < b {
        return None;
    }
    Some(b)
}

// The same as `predict`, from the decision's start on: what is not recorded is worked out and recorded.
fn learn(tables: &[u16], note: &[u16], cache: &mut [u32], a: usize, i: usize) -> Option<usize>
    requires { Predictable tables.now note.now cache.old a i }
    ensures { predicted result cache.new
        ≡ predict (grammar_in tables.now) cache.old a (drop i (marked note.now)) }
{
    let n = note.len();
    let slots = words::slots::slots(cache.len());
    let mut said = crate::asking::ask_start(tables, cache, a);
    let mut j = i;
    while let Some(s) = words::slots::state_of(said) {
        if slots <= s || n < j {
            return None;
        }
        let t = derivation::token_at(note, j);
        said = crate::asking::ask_step(tables, cache, a, s, t);
        j += 1;
    }
    forecast_of(tables, a, said)
}

// What is predicted of nonterminal a at position i: one of its alternatives, or none, which is FULL: lookahead does not tell. What had to be worked out is
// recorded. Where all is recorded, the words are only read.
pub fn predict(tables: &[u16], note: &[u16], cache: &mut [u32], a: usize, i: usize) -> Option<usize>
    requires { Predictable tables.now note.now cache.old a i }
    ensures { predicted result cache.new
        ≡ predict (grammar_in tables.now) cache.old a (drop i (marked note.now)) }
{
    let said = crate::following::recorded(note, cache, a, i);
    if said == 0 {
        return learn(tables, note, cache, a, i);
    }
    forecast_of(tables, a, said)
}

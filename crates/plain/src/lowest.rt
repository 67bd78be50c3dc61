// What the plain reading chooses: the lowest alternative that serves.
ghost use Rattle.std.specs.Prelude.{◌≡◌, ℕ, ◌<◌};
ghost use Rattle.grammar.specs.inside.Tables.{grammar_in};
ghost use Rattle.derivation.specs.Runs.{marked, Serves};
ghost use Rattle.derivation.specs.Machine.{plainly};
ghost use Rattle.machine.specs.inside.Space.{opened};
ghost use Rattle.serving.specs.inside.Aids.{budget_in};

use machine::{At, Space};
use serving::{Choose, Pick};

// It carries nothing. Something was worked out to choose by; and if a search has budget, some alternative serves wherever a nonterminal waits.
#[derive(Clone, Copy)]
pub struct Lowest;

impl Choose for Lowest {
    ghost State = { Unit {0} };

    ghost chooser = { λ t w. plainly (grammar_in t) (marked w) };

    ghost state = { λ _. tt };

    ghost keeps = { λ _ t w ms tally ws. ¬ (budget_in tally ≡ 0) };

    ghost knows = { λ t w tally ws d q a i. 1 < budget_in tally → (b : ℕ) × Serves (grammar_in t) (marked w) (opened t w ws d q) a i b };

    ghost Same = { Unit {0} };

    ghost same = { λ _. tt };

    fn choose(
        &mut self,
        tables: &[u16],
        note: &[u16],
        masks: &mut [u32],
        tally: &mut [u32],
        ws: &mut [u32],
        space: Space,
        known: usize,
        at: At,
        a: usize,
    ) -> Pick {
        serving::take(tables, note, masks, tally, ws, space, known, at, a)
    }
}

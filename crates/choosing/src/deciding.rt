// Which alternative is taken where a nonterminal waits. Only where a prediction says FULL is there need of what tells the lowest that serves.
ghost use Rattle.std.specs.Prelude.{List, ℕ, ◌≤◌, length};
ghost use Rattle.grammar.specs.inside.Tables.{grammar_in};
ghost use Rattle.derivation.specs.Runs.{marked};
ghost use Rattle.words.specs.Layout.{min_words};
ghost use Rattle.adaptive.specs.Chooser.{adaptively};
ghost use Rattle.machine.specs.inside.Choice.{Numbered};
ghost use Rattle.serving.specs.inside.Aids.{Far};
ghost use Rattle.choosing.specs.inside.Deciding.{Deciding, Chose};

use machine::{At, Space};
use serving::{Choose, Pick};

// Nonterminal a waits: what is taken, and its return place as frame at.depth.
pub fn decide(
    tables: &[u16],
    note: &[u16],
    masks: &mut [u32],
    tally: &mut [u32],
    cache: &mut [u32],
    ws: &mut [u32],
    space: Space,
    known: usize,
    at: At,
    a: usize,
) -> Pick
    requires { Deciding tables.now note.now masks.old tally.old cache.old ws.old space known at a }
    ensures { Numbered result.alternative (Chose tables.now note.now masks.old tally.old ws.old
        masks.new tally.new ws.new cache.old cache.new
        at.depth at.place a at.position result.known) }
{
    if derivation::alternatives(tables, a) < 2 {
        let stand = serving::push(ws, space.base, known, at);
        return Pick {
            alternative: Some(1),
            known: stand,
        };
    }
    match cache::predict(tables, note, cache, a, at.position) {
        Some(b) => {
            let stand = serving::push(ws, space.base, known, at);
            Pick {
                alternative: Some(b),
                known: stand,
            }
        }
        // FULL: lookahead does not tell
        None => serving::serve(tables, note, masks, tally, ws, space, known, at, a),
    }
}

// The quick reading's choices over the words of its cache, which are what it carries. How far a search came is kept, and that the words are enough for a cache.
#[derive(Drop)]
pub struct Predicting<'a> {
    pub cache: &'a mut [u32],
}

impl Choose for Predicting<'_> {
    ghost State = { List ℕ };

    ghost chooser = { λ t w. adaptively (grammar_in t) (marked w) };

    ghost state = { λ s. s.cache.now };

    ghost keeps = { λ s t w ms tally ws. Far t w ms tally ws × (min_words ≤ length s.cache.now) };

    ghost knows = { λ t w tally ws d q a i. Unit {0} };

    ghost Same = { ℕ };

    ghost same = { λ s. s.cache.ghost_name };

    fn choose(
        &mut self,
        tables: &[u16],
        note: &[u16],
        masks: &mut [u32],
        tally: &mut [u32],
        ws: &mut [u32],
        space: Space,
        known: usize,
        at: At,
        a: usize,
    ) -> Pick {
        decide(
            tables, note, masks, tally, self.cache, ws, space, known, at, a,
        )
    }
}

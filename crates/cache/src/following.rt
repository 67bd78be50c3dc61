// Recorded outcomes are followed, and nothing is learned: a few reads for each token. Most predictions are found here.
ghost use Rattle.std.specs.Prelude.{drop};
ghost use Rattle.derivation.specs.Runs.{marked};
ghost use Rattle.cache.specs.inside.Following.{Followable, Recorded};

use words::layout::FULL;

// What recorded outcomes say at last of decision a over the tokens from position i on: an alternative or FULL, and 0 where something is not recorded.
pub fn recorded(note: &[u16], cache: &[u32], a: usize, i: usize) -> u32
    requires { Followable note.now cache.now a i }
    ensures { Recorded cache.now a (drop i (marked note.now)) result }
{
    let n = note.len();
    let slots = words::slots::slots(cache.len());
    let mut said = words::slots::start_of(cache, a);
    let mut j = i;
    while let Some(s) = words::slots::state_of(said) {
        if slots <= s || n < j {
            return FULL;
        }
        let t = derivation::token_at(note, j);
        said = words::slots::step_of(cache, s, t);
        j += 1;
    }
    said
}

// Equal states. Each has a print, the sum of its decision and its words, and only states with the same print are compared word by word: so the search looks at
// each word of the states about once, unless somebody makes states such that their prints are equal.
ghost use Rattle.std.specs.Prelude.{◌≡◌, suc, ◌≤◌, ◌<◌, length, sum};
ghost use Rattle.configurations.specs.Packing.{max_kept_words};
ghost use Rattle.words.specs.Layout.{slots};
ghost use Rattle.auditing.specs.Coherence.{equal?, new?, single?};
ghost use Rattle.auditing.specs.inside.Prints.{print_of};
ghost use Rattle.auditing.specs.inside.Relied.{Held, Printed};

use words::layout::MAX_SLOTS;

// The sum of some words.
fn total(words: &[u32]) -> usize
    requires { length words.now ≤ max_kept_words }
    ensures { result ≡ sum words.now }
{
    words.iter().map(|word| base::number(*word)).sum()
}

// The print of the state of slot s.
fn print_of(cache: &[u32], s: usize) -> usize
    requires { s < slots (length cache.now) }
    ensures { result ≡ print_of cache.now s }
{
    words::slots::decision(cache, s) + total(words::slots::kept(cache, s))
}

// Whether slots p and s hold the same state.
fn equal(cache: &[u32], p: usize, s: usize) -> bool
    requires { (p < slots (length cache.now)) × (s < slots (length cache.now)) }
    ensures { result ≡ equal? cache.now p s }
{
    let a = words::slots::decision(cache, s);
    cache::holds(cache, a, words::slots::kept(cache, s), p)
}

// Whether no slot before s holds the state of s, whose prints are these.
fn new(cache: &[u32], prints: &[usize], s: usize) -> bool
    requires { (s < slots (length cache.now)) × Printed cache.now prints.now (suc s) }
    ensures { result ≡ new? cache.now s }
{
    let print = prints[s];
    for p in 0..s {
        if prints[p] == print && equal(cache, p, s) {
            return false;
        }
    }
    true
}

// Whether no decision holds two equal states.
pub fn single(cache: &[u32]) -> bool
    requires { Held cache.now }
    ensures { result ≡ single? cache.now }
{
    let mut prints = [0usize; MAX_SLOTS];
    for s in 0..words::slots::held(cache) {
        prints[s] = print_of(cache, s);
        if !new(cache, &prints, s) {
            return false;
        }
    }
    true
}

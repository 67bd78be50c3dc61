// Coherent words: the layout, then equal states, then every record.
ghost use Rattle.std.specs.Prelude.{◌≡◌, ◌+◌, ◌≤◌, length};
ghost use Rattle.grammar.specs.inside.Tables.{grammar_in};
ghost use Rattle.derivation.specs.inside.Ready.{Ready};
ghost use Rattle.words.specs.Layout.{min_words, fixed_words, bytes_at};
ghost use Rattle.auditing.specs.Coherence.{right?};

// Whether the words of a cache that has begun for the grammar of these tables are coherent; its bytes have n words.
pub fn coherent(tables: &[u16], cache: &[u32], n: usize) -> bool
    requires { Ready tables.now × (min_words ≤ length cache.now) × (bytes_at + n ≤ fixed_words) }
    ensures { result ≡ right? (grammar_in tables.now) n cache.now }
{
    if !crate::layout::laid_out(tables, cache, n) {
        return false;
    }
    if !crate::states::single(cache) {
        return false;
    }
    crate::records::recorded(tables, cache)
}

// How a cache stands to a grammar: what refusals 12 and 13 ask.
ghost use Rattle.std.specs.Prelude.{◌≡◌};
ghost use Rattle.words.specs.inside.Standings.{standing_of};

// Why a cache may not be used by a grammar. Where it may, it has begun for the grammar at this length.
#[derive(Clone, Copy, Debug, PartialEq, Eq)]
pub enum CacheRefusal {
    // 12: it is shorter than every cache.
    Short,
    // 13: it has not begun for the grammar at this length.
    Foreign,
}

// 12, and then 13.
pub fn stands(grammar: &[u8], cache: &[u32]) -> Result<(), CacheRefusal>
    ensures { result ≡ standing_of grammar.now cache.now }
{
    if cache.len() < crate::layout::MIN_WORDS {
        return Err(CacheRefusal::Short);
    }
    if !crate::beginning::is_begun(grammar, cache) {
        return Err(CacheRefusal::Foreign);
    }
    Ok(())
}

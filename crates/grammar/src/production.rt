// The symbols of a production, one after another.
ghost use Rattle.std.specs.Prelude.{◌≡◌};
ghost use Rattle.std.specs.Iterator.{item_count};
ghost use Rattle.grammar.specs.inside.Tables.{TablesFit};

use crate::Symbol;

// The symbols that are still to come, from a place to its production's end.
#[derive(Drop)]
pub struct Symbols<'a> {
    tables: &'a [u16],
    place: usize,
}

impl<'a> Iterator for Symbols<'a> {
    ghost use Rattle.grammar.specs.inside.Production.{symbols_left, GivesSymbol};

    type Item = Symbol;

    ghost can_next = { λ s. TablesFit s.tables.now };

    ghost next_gives = { GivesSymbol };

    ghost remaining = { item_count symbols_left };

    #[inline(always)]
    fn next(&mut self) -> Option<Symbol> {
        match crate::place_at(self.tables, self.place).symbol {
            Symbol::End => None,
            symbol => {
                self.place += 1;
                Some(symbol)
            }
        }
    }
}

// The symbols from a place to its production's end.
pub fn symbols_from(tables: &[u16], place: usize) -> Symbols
    ensures { (result.tables.now ≡ tables.now) × (result.place ≡ place) }
{
    Symbols { tables, place }
}

// What a search may still cost.
ghost use Rattle.std.specs.Prelude.{◌≡◌, max};
ghost use Rattle.search.specs.inside.Budget.{Paid};

// How much is left of the budget, and how far into the note the search came.
#[derive(Clone, Copy, Debug, PartialEq, Eq)]
pub struct Meter {
    pub left: usize,
    pub high: usize,
}

// The budget is out.
#[derive(Clone, Copy, Debug, PartialEq, Eq)]
pub struct Exhausted;

impl Meter {
    // Takes so much of the budget, unless less is left.
    pub fn pay(&mut self, units: usize) -> Result<(), Exhausted>
        ensures { Paid units self.old self.new result }
    {
        if self.left < units {
            return Err(Exhausted);
        }
        self.left -= units;
        Ok(())
    }

    // The search came to a position.
    pub fn reach(&mut self, j: usize)
        ensures { self.new ≡ record self.old { high = max self.old.high j } }
    {
        if self.high < j {
            self.high = j;
        }
    }
}

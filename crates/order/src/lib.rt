// The nonterminals of a sound grammar in an order: each behind its left corners, the nonterminals that may stand first in what it derives. There is
// such an order, because no nonterminal of a sound grammar is left recursive: as long as some have no place, one of them has only corners that have.
#![tactic(auto)]

ghost use Rattle.std.specs.Prelude.{◌≡◌, suc, ◌<◌, length, set};
ghost use Rattle.base.specs.Bits.{set_bit};
ghost use Rattle.grammar.specs.Limits.{max_nonterminals};
ghost use Rattle.derivation.specs.inside.Ready.{Ready};
ghost use Rattle.order.specs.inside.Order.{InOrder};
ghost use Rattle.order.specs.inside.Placing.{ripe_of, turn_of, Placing, Sweeps};

// Nonterminals that have a place: which, and how many.
#[derive(Clone, Copy)]
struct Placed {
    set: u32,
    count: usize,
}

// Whether a has no place, and every left corner in `row` has one.
fn ripe(row: u32, set: u32, a: usize) -> bool
    requires { a < max_nonterminals }
    ensures { result ≡ ripe_of row set a }
{
    if base::has(set, a) {
        return false;
    }
    base::subset(row, set)
}

// The k-th of n nonterminals, from the first up or from the last down: one loop and one proof for both ways, where two ranges would need two of each.
fn turn(up: bool, k: usize, n: usize) -> usize
    requires { k < n }
    ensures { result ≡ turn_of up k n }
{
    if up {
        return k;
    }
    n - 1 - k
}

// Nonterminal a takes the next place.
fn place(order: &mut [usize], placed: Placed, a: usize) -> Placed
    requires { (placed.count < length order.old) × (a < max_nonterminals) }
    ensures { (result.set ≡ set_bit placed.set a) × (result.count ≡ suc placed.count)
        × (order.new ≡ set order.old placed.count a) }
{
    let count = placed.count;
    order[count] = a;
    Placed {
        set: base::with(placed.set, a),
        count: count + 1,
    }
}

// Every nonterminal once, upwards or downwards: those that are ripe then take the next place. At least one does.
fn sweep(tables: &[u16], order: &mut [usize], from: Placed, up: bool) -> Placed
    requires { Sweeps tables.now order.old from.set from.count }
    ensures { Placing tables.now order.new result.set result.count × (from.count < result.count) }
{
    let n = grammar::nonterminals(tables);
    let mut placed = from;
    for k in 0..n {
        let a = turn(up, k, n);
        let row = grammar::corner_row(tables, a);
        if ripe(row, placed.set, a) {
            placed = place(order, placed, a);
        }
    }
    placed
}

// Lines up the nonterminals, by turns downwards, as grammars mostly build, and upwards.
pub fn line_up(tables: &[u16], order: &mut [usize])
    requires { Ready tables.now × (length order.old ≡ max_nonterminals) }
    ensures { InOrder tables.now order.new }
{
    let n = grammar::nonterminals(tables);
    let mut placed = Placed { set: 0, count: 0 };
    let mut up = false;
    while placed.count < n {
        placed = sweep(tables, order, placed, up);
        up = !up;
    }
}

// Rules 2 to 5 on the kept configurations, which stand from `first` on up to n. As a struct of the row and the two numbers they were tried: each clause
// then reads `self.entry.members.now` for `members.now`, which is no plainer.
ghost use Rattle.std.specs.Prelude.{◌≡◌, not, ◌-◌, ◌≤◌};
ghost use Rattle.base.specs.Rounds.{any_of};
ghost use Rattle.configurations.specs.inside.Packed.{config_of};
ghost use Rattle.lookahead.specs.Outcomes.{rivals, agreed, shared, settled, judged};
ghost use Rattle.configurations.specs.inside.Held.{configs_from, Room};
ghost use Rattle.learning.specs.inside.Told.{Tells, Judges};

use configurations::Packed;

// FULL, an alternative, or a state: from which member on its configurations stand, and how many they are.
#[derive(Clone, Copy)]
pub enum Outcome {
    Full,
    Alternative(u32),
    State(usize, usize),
}

// Whether all from `from` on have alternative b.
fn agreed(members: &[u32], from: usize, n: usize, b: u32) -> bool
    requires { Room members.now n × (from ≤ n) }
    ensures { result ≡ agreed b (configs_from members.now from (n - from)) }
{
    (from..n).all(|k| configurations::member(members, k).alternative() == b)
}

// Whether two alternatives share a place and a stack. The search ends at the first such pair. Those with the same stack stand together.
fn shared(members: &[u32], first: usize, n: usize) -> bool
    requires { Judges members.now first n }
    ensures { result ≡ shared (configs_from members.now first (n - first)) }
{
    let mut found = false;
    'search: for i in first..n {
        let c = configurations::member(members, i);
        for j in i + 1..n {
            let d = configurations::member(members, j);
            if !c.level(d) {
                break;
            }
            if c.conflicts(d) {
                found = true;
                break 'search;
            }
        }
    }
    found
}

// Whether no other alternative stands at the place of c.
fn alone(members: &[u32], first: usize, n: usize, c: Packed) -> bool
    requires { Room members.now n × (first ≤ n) }
    ensures { result ≡ not (any_of (rivals (config_of c)) (configs_from members.now first (n - first))) }
{
    !(first..n).any(|k| c.rivals(configurations::member(members, k)))
}

// Whether some place belongs to one alternative only.
fn settled(members: &[u32], first: usize, n: usize) -> bool
    requires { Room members.now n × (first ≤ n) }
    ensures { result ≡ settled (configs_from members.now first (n - first)) }
{
    (first..n).any(|k| alone(members, first, n, configurations::member(members, k)))
}

// Rules 2 to 5, in order.
pub fn judge(members: &[u32], first: usize, n: usize) -> Outcome
    requires { Judges members.now first n }
    ensures { Tells result members.now (judged (configs_from members.now first (n - first))) }
{
    if first == n {
        return Outcome::Full;
    }
    let b = configurations::member(members, first).alternative();
    if agreed(members, first + 1, n, b) {
        return Outcome::Alternative(b);
    }
    if !shared(members, first, n) || settled(members, first, n) {
        return Outcome::State(first, n - first);
    }
    Outcome::Full
}

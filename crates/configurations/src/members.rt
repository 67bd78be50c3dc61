// The members of a closed set, side by side in the order in which they came. The row is the caller's, and their number goes beside it: a struct that held
// the row as a `&mut` would have to say in every contract that it still holds the same one.
ghost use Rattle.std.specs.Prelude.{◌≡◌, false, ◌+◌, ◌-◌};
ghost use Rattle.lookahead.specs.Closing.{member?, add};
ghost use Rattle.configurations.specs.inside.Packed.{config_of, Exact};
ghost use Rattle.configurations.specs.inside.Held.{configs_from, Room, MemberPart, block_members, Grows};

use crate::config::Packed;

// The members that a closed set may have.
pub const MEMBERS: usize = 256;

// Their words.
pub const MEMBER_WORDS: usize = crate::words::CONFIG_WORDS * MEMBERS;

// The members that are passed over at once.
const BLOCK: usize = 4;

// Whether c is a member from `from` on, before `to`. Most others differ in the head, and so their stacks are not read.
fn among(members: &[u32], from: usize, to: usize, c: Packed) -> bool
    requires { MemberPart members.now from to × Exact c }
    ensures { result ≡ member? (config_of c) (configs_from members.now from (to - from)) }
{
    (from..to).any(|k| crate::words::head(members, k) == c.head
        && c.equals(crate::words::member(members, k)))
}

// Whether one of a block of members, from k on, has the head of c. If none has, c is not among them.
fn has_head(members: &[u32], k: usize, c: Packed) -> bool
    requires { MemberPart members.now k (k + block_members) × Exact c }
    ensures { result ≡ false → member? (config_of c) (configs_from members.now k block_members) ≡ false }
{
    (k..k + BLOCK).any(|j| crate::words::head(members, j) == c.head)
}

// Whether c is one of the first n: block by block, and the rest one by one.
fn is_member(members: &[u32], n: usize, c: Packed) -> bool
    requires { Room members.now n × Exact c }
    ensures { result ≡ member? (config_of c) (configs_from members.now 0 n) }
{
    for b in 0..n / BLOCK {
        let k = BLOCK * b;
        if has_head(members, k, c) && among(members, k, k + BLOCK, c) {
            return true;
        }
    }
    among(members, n - n % BLOCK, n, c)
}

// c behind the first n, unless it is one of them: how many members there are then, if that is not too many.
pub fn add(members: &mut [u32], n: usize, c: Packed) -> Option<usize>
    requires { Room members.old n × Exact c }
    ensures { Grows result members.new (add (configs_from members.old 0 n) (config_of c)) }
{
    if is_member(members, n, c) {
        return Some(n);
    }
    if n == MEMBERS {
        return None;
    }
    crate::words::put(members, n, c);
    Some(n + 1)
}

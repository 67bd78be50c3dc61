// The audit: the refusals of the grammar and of the cache, and then its words.
ghost use Rattle.std.specs.Prelude.{◌≡◌, ◌+◌};
ghost use Rattle.grammar.specs.inside.Tables.{grammar_in};
ghost use Rattle.audit.specs.Contract.{audit_number, audit_place, AuditDid};
ghost use Rattle.audit.specs.inside.Asked.{Asks, judged_of};

use crate::answer::AuditRefusal;

// 19, or a yes, for a cache that has begun; its grammar bytes have n words.
fn judge(tables: &[u16], cache: &[u32], n: usize) -> Result<(), AuditRefusal>
    requires { Asks tables.now cache.now n }
    ensures { result ≡ judged_of (grammar_in tables.now) n cache.now }
{
    if auditing::coherent(tables, cache, n) {
        return Ok(());
    }
    Err(AuditRefusal::Incoherent)
}

// Whether quick readings by the grammar may be trusted over a cache, whoever wrote its words. Nothing is written. After a yes every quick reading answers as
// the plain one does, and a note that was read before teaches nothing more.
pub fn audit(grammar: &[u8], cache: &[u32]) -> Result<(), AuditRefusal>
    ensures { AuditDid grammar.now cache.now (audit_number result) (audit_place result) }
{
    let mut tables = [0u16; grammar::TABLE_WORDS];
    soundness::compile(grammar, &mut tables)?;
    words::stands(grammar, cache)?;
    judge(&tables, cache, (grammar.len() + 3) / 4)
}

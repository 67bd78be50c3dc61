// Why an audit says no, with the scope's number and place.
ghost use Rattle.std.specs.Prelude.{◌≡◌};
ghost use Rattle.audit.specs.Contract.{refused_number, refused_place, cache_refused};
ghost use Rattle.audit.specs.declared.answer.AuditRefusal.TheVariants.{Grammar};

use number::{Numbered, Refusal};
use words::CacheRefusal;

// Why a cache may not be trusted. Where an audit says yes, the words are coherent: over this cache quick readings by this grammar answer as plain ones do.
#[derive(Clone, Copy, Debug, PartialEq, Eq)]
pub enum AuditRefusal {
    // 1 to 7: the grammar is refused.
    Grammar(Refusal),
    // 12: the cache is too short.
    ShortCache,
    // 13: the cache has not begun for this grammar at this length.
    ForeignCache,
    // 19: a word is not as documented, a decision holds two equal states, or a record is not what the learning rules give.
    Incoherent,
}

impl From<Refusal> for AuditRefusal {
    ghost from_gives = { λ r e. e ≡ Grammar r };

    fn from(r: Refusal) -> AuditRefusal {
        AuditRefusal::Grammar(r)
    }
}

impl From<CacheRefusal> for AuditRefusal {
    ghost from_gives = { λ r e. e ≡ cache_refused r };

    fn from(r: CacheRefusal) -> AuditRefusal {
        match r {
            CacheRefusal::Short => AuditRefusal::ShortCache,
            CacheRefusal::Foreign => AuditRefusal::ForeignCache,
        }
    }
}

impl Numbered for AuditRefusal {
    ghost scope_number = { refused_number };

    ghost scope_place = { refused_place };

    fn number(&self) -> u32 {
        match self {
            AuditRefusal::Grammar(r) => r.number(),
            AuditRefusal::ShortCache => 12,
            AuditRefusal::ForeignCache => 13,
            AuditRefusal::Incoherent => 19,
        }
    }

    // 0 where none is named.
    fn place(&self) -> usize {
        match self {
            AuditRefusal::Grammar(r) => r.place(),
            AuditRefusal::ShortCache | AuditRefusal::ForeignCache | AuditRefusal::Incoherent => 0,
        }
    }
}

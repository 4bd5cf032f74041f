//! Neighbouring ports that a flood leaves out for the same cause, told as one.
ghost use Rattle.std.specs.Prelude.{◌≡◌, ◌∷◌, ◌++◌, ◌+◌, ◌==◌, List, IfOk};
ghost use Rattle.std.specs.Option.{option_to_list};
ghost use Rattle.event_story.specs.Neighbours.{folded, joined};
ghost use Rattle.event_story.specs.declared.fact.Fact.{Fact};

use crate::fact::Fact;
use crate::refusal::put_one;
use std::alloc::AllocError;

/// Goes on with the next fact, where there is one: the one that is begun takes it in, or else is put behind the facts, and the
/// next one is begun. Answers the one that is begun then. `AllocError`: there was no room for it.
pub(crate) fn put_closed(
    facts: &mut Vec<Fact>,
    begun: Option<Fact>,
    next: Option<Fact>,
) -> Result<Option<Fact>, AllocError>
    ensures { IfOk result (λ still. (rest : List Fact) → facts.new.items ++ folded (option_to_list still ++ rest)
        ≡ facts.old.items ++ folded (option_to_list begun ++ (option_to_list next ++ rest))) }
{
    match next {
        None => Ok(begun),
        Some(fact) => put_before(facts, begun, fact),
    }
}

/// The same with the fact that is next.
fn put_before(
    facts: &mut Vec<Fact>,
    begun: Option<Fact>,
    next: Fact,
) -> Result<Option<Fact>, AllocError>
    ensures { IfOk result (λ still. (rest : List Fact) → facts.new.items ++ folded (option_to_list still ++ rest)
        ≡ facts.old.items ++ folded (option_to_list begun ++ (next ∷ rest))) }
{
    match begun {
        None => Ok(Some(next)),
        Some(before) => put_apart(facts, before, next),
    }
}

/// The same with the one that is begun.
fn put_apart(facts: &mut Vec<Fact>, begun: Fact, next: Fact) -> Result<Option<Fact>, AllocError>
    ensures { IfOk result (λ still. (rest : List Fact) → facts.new.items ++ folded (option_to_list still ++ rest)
        ≡ facts.old.items ++ folded (begun ∷ next ∷ rest)) }
{
    match joined(&begun, &next) {
        Some(both) => Ok(Some(both)),
        None => {
            put_one(facts, begun)?;
            Ok(Some(next))
        }
    }
}

/// Two facts as one, where both tell the same cause, and the ports of the second follow those of the first.
fn joined(one: &Fact, other: &Fact) -> Option<Fact>
    ensures { result ≡ joined one.now other.now }
{
    match (one, other) {
        (
            Fact::PortsDown { first, last },
            Fact::PortsDown {
                first: next,
                last: end,
            },
        ) if follows(*next, *last) => Some(Fact::PortsDown {
            first: *first,
            last: *end,
        }),
        (
            Fact::NoMembers { first, last },
            Fact::NoMembers {
                first: next,
                last: end,
            },
        ) if follows(*next, *last) => Some(Fact::NoMembers {
            first: *first,
            last: *end,
        }),
        _ => None,
    }
}

/// Whether a port is the one behind another.
fn follows(next: u8, last: u8) -> bool
    ensures { result ≡ (next == last + 1) }
{
    u16::from(next) == u16::from(last) + 1
}

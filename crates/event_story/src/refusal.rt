//! Which tests are told.
ghost use Rattle.std.specs.Prelude.{◌≡◌, ◌∷◌, [], ◌++◌, OnOk};
ghost use Rattle.std.specs.Option.{option_to_list};
ghost use Rattle.event_story.specs.Tests.{refusal_of, refuses};

use crate::fact::Fact;
use endpoint_core::Arrival;
use std::alloc::AllocError;
use wire::ether::{Reason, Refused};

/// Why a frame comes to no segment, if it doesn't.
pub(crate) fn refusal_of(came: &Result<Arrival, Refused>) -> Option<Reason>
    ensures { result ≡ refusal_of came.now }
{
    match came {
        Ok(_) => None,
        Err(refused) => Some(refused.reason),
    }
}

/// Whether a test is the one that refuses.
pub(crate) fn refuses(refusal: Option<Reason>, test: Reason) -> bool
    ensures { result ≡ refuses refusal test }
{
    match refusal {
        None => false,
        Some(reason) => reason.number() == test.number(),
    }
}

/// Puts a fact behind the others, where there is one.
pub(crate) fn put(facts: &mut Vec<Fact>, fact: Option<Fact>) -> Result<(), AllocError>
    ensures { OnOk result (facts.new.items ≡ facts.old.items ++ option_to_list fact) }
{
    match fact {
        Some(fact) => put_one(facts, fact),
        None => Ok(()),
    }
}

/// Puts a fact behind the others.
pub(crate) fn put_one(facts: &mut Vec<Fact>, fact: Fact) -> Result<(), AllocError>
    ensures { OnOk result (facts.new.items ≡ facts.old.items ++ fact ∷ []) }
{
    facts.push(fact)?;
    Ok(())
}

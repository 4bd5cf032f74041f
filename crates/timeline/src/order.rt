//! The order of events.
ghost use Rattle.std.specs.Prelude.{◌≡◌, IfOk};
ghost use Rattle.timeline.specs.Order.{IsRising, merged};

use crate::event::Event;
use std::alloc::AllocError;

/// Puts events in order of moment. Those of one moment stay in their order.
pub fn merge<'a>(mut events: Vec<Event<'a>>) -> Result<Vec<Event<'a>>, AllocError>
    ensures merged { IfOk result (λ sorted. sorted.items ≡ merged events.entry.items) }
    ensures rising { IfOk result (λ sorted. IsRising 0 sorted.items) }
{
    events.sort_by_key(|event| event.moment)?;
    Ok(events)
}

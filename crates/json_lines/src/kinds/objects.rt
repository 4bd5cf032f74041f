//! Texts told as objects.
ghost use Rattle.std.specs.Prelude.{IfOk};
ghost use Rattle.json_lines.specs.Telling.{AllWhole, Tells};

use crate::kinds::Kind;
use crate::kinds::compared::{compared_forms, delay_forms};
use crate::kinds::counts::count_forms;
use crate::kinds::events::{event_forms, fact_forms};
use crate::kinds::layers::layer_forms;
use crate::kinds::lonely::{difference_forms, lonely_received_forms, lonely_sent_forms};
use crate::kinds::looks::look_forms;
use crate::kinds::tables::entry_forms;
use crate::{Form, objects_of as objects_by};
use std::alloc::{AllocError, Global};

/// The object of each line of a text of this kind, a line each. `AllocError`: there was no memory for them.
pub fn objects_of(alloc: Global, kind: Kind, text: &[u8]) -> Result<Vec<u8>, AllocError>
    ensures { IfOk result (λ v. Tells v.items text.now) }
{
    match kind {
        Kind::Events => tell(
            alloc,
            &[event_forms(), entry_forms(), layer_forms(), fact_forms()],
            text,
        ),
        Kind::Tables => tell(alloc, &[entry_forms()], text),
        Kind::Counts => tell(alloc, &[count_forms()], text),
        Kind::Looks => tell(alloc, &[look_forms()], text),
        Kind::Compared => tell(
            alloc,
            &[
                compared_forms(),
                delay_forms(),
                lonely_sent_forms(),
                lonely_received_forms(),
                difference_forms(),
            ],
            text,
        ),
    }
}

/// The same by tables of whole forms.
#[tactic(auto, unfolding(crate::specs::Telling::Tells))]
fn tell(alloc: Global, tables: &[&'static [Form]], text: &[u8]) -> Result<Vec<u8>, AllocError>
    requires { AllWhole tables.now }
    ensures { IfOk result (λ v. Tells v.items text.now) }
{
    objects_by(alloc, tables, text)
}

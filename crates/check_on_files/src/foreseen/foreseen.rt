//! Changes that will be refused.
ghost use Rattle.std.specs.Prelude.{◌≡◌, ◌++◌, IfOk, OnOk, Some};
ghost use Rattle.std.specs.Option.{option_map, option_to_list};
ghost use Rattle.endpoint_core.specs.Opened.{settings_told};
ghost use Rattle.check_on_files.specs.Foreseen.{foreseen_text, refusals};

use crate::foreseen::answer::refuse;
use endpoint_core::state::{ChangeFault, EndpointState};
use overlay::settings::{Settings, TimedChange};
use std::alloc::{AllocError, Global};
use std::fmt;

/// A change that will be refused. It prints as a line without its end: `change 2 at 1000000000: refused 2 NoPort`.
#[derive(Clone, Copy, Debug, PartialEq, Eq)]
pub struct Foreseen {
    /// The number of the change, from 1.
    pub number: u64,
    /// Its moment, in nanoseconds.
    pub at: u64,
    /// Why it is refused.
    pub fault: ChangeFault,
}

impl fmt::Display for Foreseen {
    ghost output = { λ refusal. Some (foreseen_text refusal) };

    fn fmt<W: fmt::Write>(&self, f: &mut fmt::Formatter<W>) -> fmt::Result {
        let number = self.number;
        let at = self.at;
        let fault = self.fault.number();
        let name = self.fault.name();
        write!(f, "change {number} at {at}: refused {fault} {name}")
    }
}

/// Puts a change of this number behind others, where it is refused.
fn put(
    list: &mut Vec<Foreseen>,
    number: u64,
    at: u64,
    fault: Option<ChangeFault>,
) -> Result<(), AllocError>
    ensures { OnOk result (list.new.items
        ≡ list.old.items ++ option_to_list (option_map (λ why. record { number = number; at = at; fault = why }) fault)) }
{
    match fault {
        Some(fault) => {
            list.push(Foreseen { number, at, fault })?;
            Ok(())
        }
        None => Ok(()),
    }
}

/// The changes that the settings alone refuse, as the changes before each left them, in their order. `AllocError`: memory
/// was refused, and nothing else.
pub fn foresee(
    alloc: Global,
    settings: Settings,
    changes: &[TimedChange],
) -> Result<Vec<Foreseen>, AllocError>
    ensures { IfOk result (λ list. list.items ≡ refusals (settings_told settings) changes.now) }
{
    let mut state = EndpointState::open(alloc, settings)?;
    let mut list = Vec::new(alloc);
    for (index, timed) in changes.iter().enumerate() {
        let TimedChange { at, change } = *timed;
        let fault = refuse(&mut state, change);
        put(&mut list, index as u64 + 1, at, fault)?;
    }
    Ok(list)
}

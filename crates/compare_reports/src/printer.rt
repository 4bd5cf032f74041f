//! Where lines are printed.
ghost use Rattle.std.specs.Prelude.{ℕ, List, Option, IfOk, IfSome, OnOk};
ghost use Rattle.compare_reports.specs.Prints.{Prints, unless};

use std::alloc::{AllocError, Global};
use std::fmt;

/// Whoever prints texts, one after another, and knows which event a record is of that was sent. A list of all that was printed is
/// kept nowhere, so a contract says what one text makes of whoever prints it.
pub trait Printer {
    /// Why a text can't be printed, or an event isn't known.
    type Fault: From<AllocError> + Drop;

    /// From the first state, this text, printed, leaves the second.
    ghost prints: { Self → List ℕ → Self → Type 0 };

    /// From the first state, asking for the record of this number that was sent leaves the second, with its event, where there is one.
    ghost finds: { Self → ℕ → Option ℕ → Self → Type 0 };

    /// Memory for a text.
    fn alloc(&self) -> Global;

    /// Prints a text of whole lines.
    fn print(&mut self, text: &[u8]) -> Result<(), Self::Fault>
        ensures { OnOk result (prints self.old text.now self.new) };

    /// The number of the event that the record of this number is of, from 1, of those that were sent; none where they are of no run.
    /// Records are asked for in rising order.
    fn event_of(&mut self, number: u64) -> Result<Option<u64>, Self::Fault>
        ensures { IfOk result (λ event. finds self.old number event self.new) };
}

/// Prints the text of a value.
pub fn print_told<P: Printer, D: fmt::Display>(printer: &mut P, told: &D) -> Result<(), P::Fault>
    ensures { OnOk result (IfSome (D.output told.now) (λ text. P.prints printer.old text printer.new)) }
{
    let text = match format!(in printer.alloc(); "{told}") {
        Ok(text) => text,
        Err(error) => return Err(P::Fault::from(error)),
    };
    printer.print(text.as_bytes())
}

/// Prints the text of a value, unless there is nothing to tell.
pub(crate) fn print_unless<P: Printer, D: fmt::Display>(
    printer: &mut P,
    is_none: bool,
    told: &D,
) -> Result<(), P::Fault>
    ensures { OnOk result (IfSome (D.output told.now) (λ text. Prints P.prints printer.old (unless is_none text) printer.new)) }
{
    if is_none {
        return Ok(());
    }
    print_told(printer, told)
}

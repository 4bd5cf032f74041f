//! What a page is written with.
ghost use Rattle.std.specs.Prelude.{◌≡◌, OnOk, IfSome};
ghost use Rattle.std.specs.Io.KnownBytes.{Appends};
ghost use Rattle.report_page.specs.Written.{AppendsThere};

use pcap::stream::{Output, WriteFault};
use std::fmt::{self, Display, Write};

/// An output, as what texts are printed to.
#[derive(Drop)]
struct Pen<'a, W: Output> {
    out: &'a mut W,
}

impl<'a, W: Output> fmt::Write for Pen<'a, W> {
    ghost write_str_gives = { λ s text t. AppendsThere (W.written s.out.now) (W.written t.out.now) s.out.ghost_name t.out.ghost_name text };

    fn write_str(&mut self, text: &str) -> fmt::Result {
        match self.out.write_all(text.as_bytes()) {
            Ok(()) => Ok(()),
            Err(_) => Err(fmt::Error),
        }
    }
}

/// Prints a value.
fn show<W: Output, D: Display + Drop>(pen: &mut Pen<'_, W>, value: D) -> fmt::Result
    ensures { OnOk result (IfSome (D.output value) (λ text.
        AppendsThere (W.written pen.old.out.now) (W.written pen.new.out.now) pen.old.out.ghost_name pen.new.out.ghost_name text)) }
{
    pen.write(value)
}

/// Prints a value to an output. A fault comes where a write fails: then a part of its text was written.
pub(crate) fn print_to<W: Output, D: Display + Drop>(
    value: D,
    out: &mut W,
) -> Result<(), WriteFault>
    ensures { OnOk result (IfSome (D.output value) (λ text. Appends (W.written out.old) (W.written out.new) text)) }
{
    let mut pen = Pen { out };
    match show(&mut pen, value) {
        Ok(()) => Ok(()),
        Err(_) => Err(WriteFault),
    }
}

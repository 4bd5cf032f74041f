//! The file of the view of a run, or standard output for it.
use crate::directions::LeavesOut;
use crate::run::AskedJob;
use crate::side_file::{SideOutput, finish_side, side_output};
use overlay_config::TimedChange;
use program_files::Failure;
use run_view::View;
use std::rt::Files;
use timeline::{Cut, Tap};

/// Who writes the view of a run into its file.
pub(crate) type RunView<'r, 'n, 'a, 'c, R> = View<'c, SideOutput<'r, 'n, 'a, R>>;

/// Who writes the view of a run with these changes, where one is asked for.
pub(crate) fn view_of_run<'r, 'n, 'a, 'c, R: Files + AllocGlobal + Print>(
    rt: &'r R,
    job: AskedJob<'n, 'n, 'a>,
    changes: &'c [TimedChange],
) -> Result<Option<RunView<'r, 'n, 'a, 'c, R>>, Failure<'static>> {
    let Some(name) = job.asked.pcapng else {
        return Ok(None);
    };
    let output = match side_output(rt, job, name, job.asked.list) {
        Ok(output) => output,
        Err(failure) => return Err(failure),
    };
    let ports = u8::try_from(job.names.ports.len()).unwrap_or(u8::MAX);
    let view = View::new(rt.alloc(), output, ports, changes)?;
    Ok(Some(view))
}

/// Hands on what the block holds of a run that stopped. Where nothing was written, the file isn't opened.
pub(crate) fn leave_view<R: Files + AllocGlobal + Print>(view: Option<RunView<'_, '_, '_, '_, R>>) {
    if let Some(view) = view {
        let mut output = view.into_output();
        let _ = output.finish();
    }
}

/// Writes the lines of the captures that are cut, and hands on what the block holds, where all could be written so far.
pub(crate) fn finish_view<R: Files + AllocGlobal + Print, L: LeavesOut>(
    view: Option<RunView<'_, '_, '_, '_, R>>,
    sieve: &L,
    cut: &[Tap],
) -> Result<(), Failure<'static>> {
    let Some(view) = view else {
        return Ok(());
    };
    let mut view = view;
    for tap in cut {
        let came = view.records(*tap);
        let whole = came.saturating_add(sieve.left_out_at(*tap));
        view.cut(&Cut { tap: *tap, whole });
    }
    let is_failed = view.is_failed();
    finish_side(view.into_output(), is_failed)
}

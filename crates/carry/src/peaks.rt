//! The `X` lines of a settled switch, appended to a vector.
ghost use Rattle.std.specs.Prelude.{◌<◌, is_ok};
ghost use Rattle.carry.specs.Lines.{join_below, peak_lines, peak_of};
ghost use Rattle.carry.specs.Settles.{AddsOf, IsSettled};

use crate::lines::push;
use listing::Peak;
use std::alloc::AllocError;
use store::Store;
use switch::Settled;

// The `X` line of a flow, if it is open.
fn push_flow<S: Store, R>(
    out: &mut Vec<u8>,
    settled: &Settled<S, R>,
    i: usize,
    j: usize,
) -> Result<(), AllocError>
    requires settled { IsSettled S.Store.lists settled.now }
    requires ports { (i < settled.now.running.plan.size.ports) × (j < settled.now.running.plan.size.ports) }
    ensures { AddsOf S.Store.lists settled.now (λ plan s. peak_of plan s i j) out.old out.new (is_ok result) }
{
    if !settled.plan().is_open(i, j).unwrap() {
        return Ok(());
    }
    let report = settled.report(i, j).unwrap();
    // widened by `as`: no number is made of a usize by From
    let line = Peak {
        input: i as u64,
        output: j as u64,
        peak: report.peak,
    };
    push(out, &line)
}

// The `X` lines of an input's open flows. A port is a number: there is no list of flows to go over.
fn push_row<S: Store, R>(
    out: &mut Vec<u8>,
    settled: &Settled<S, R>,
    i: usize,
) -> Result<(), AllocError>
    requires settled { IsSettled S.Store.lists settled.now }
    requires ports { i < settled.now.running.plan.size.ports }
    ensures { AddsOf S.Store.lists settled.now (λ plan s. join_below plan.ports (λ j. peak_of plan s i j)) out.old out.new (is_ok result) }
{
    for j in 0..settled.plan().size.ports {
        push_flow(out, settled, i, j)?;
    }
    Ok(())
}

// The `X` lines of all open flows. As in push_row, there is no list to go over.
pub(crate) fn push_peaks<S: Store, R>(
    out: &mut Vec<u8>,
    settled: &Settled<S, R>,
) -> Result<(), AllocError>
    requires settled { IsSettled S.Store.lists settled.now }
    ensures { AddsOf S.Store.lists settled.now peak_lines out.old out.new (is_ok result) }
{
    for i in 0..settled.plan().size.ports {
        push_row(out, settled, i)?;
    }
    Ok(())
}

//! Where a run is outside pauses, and the slices of what lasts from one event to another.
ghost use Rattle.std.specs.Prelude.{◌≡◌, ◌≤◌, ◌<◌, ◌-◌, ◌&&◌, suc, [], IfOk, List, None, OnOk};
ghost use Rattle.std.specs.Prelude.{length, map, nat_lt};
ghost use Rattle.rec_spans.specs.Acts as acts;
ghost use Rattle.rec_spans.specs.declared.settings.ChromeTraceGroupBy.TheVariants as group;
ghost use Rattle.rec_spans.specs.Kinds.{history};
ghost use Rattle.rec_spans.specs.Past.{TraceInput};
ghost use Rattle.rec_spans.specs.Plain.{plain, plain_kind};
ghost use Rattle.rec_view.specs.ShownGaps.{Adds, AreEnds, AreGaps, Becomes, Closes, IsRunEnd};
ghost use Rattle.rec_view.specs.ShownGaps.{Passes, PausesBy, is_wanted, pairs, passes_for};
ghost use Rattle.rec_view.specs.Slices.{all_slices, in_pause, instant_if, pauses};

use rec_events::{CoreEventKind, OutputSpec, TestEventKindSummary, TestEventSummary};
use std::alloc::{AllocError, Global};

/// Holds where a slice stands among the events of its run, as numbers of events before it.
#[derive(Clone, Copy, Drop)]
pub struct Slice {
    /// How many events stand before the one at which the slice begins.
    pub from: usize,
    /// How many stand before the one at which it ends.
    pub to: usize,
}

/// Tells after which events a run is outside pauses.
#[derive(Drop)]
pub struct ShownGaps {
    shown: Vec<bool>,
    /// At which event a run of gaps like this one ends, of each gap, the last one first.
    ends: Vec<usize>,
}

/// Cuts slices out of gaps.
#[derive(Drop)]
pub(crate) struct Cutter {
    slices: Vec<Slice>,
    /// Where the slice begins that is open.
    held: Option<usize>,
}

impl Cutter {
    /// Begins without slices.
    fn new(alloc: Global) -> Cutter
        ensures slices { result.slices.items ≡ [] }
        ensures held { result.held ≡ None }
    {
        Cutter {
            slices: Vec::new(alloc),
            held: None,
        }
    }

    /// Adds the instant of an event, if there is one.
    fn add_instant(&mut self, at: usize, is: bool) -> Result<(), AllocError>
        ensures ok { OnOk result (Adds (instant_if is at) self.old self.new) }
    {
        if is {
            self.slices.push(Slice { from: at, to: at })?;
        }
        Ok(())
    }

    /// Ends the slice that is open, if one is.
    fn close(&mut self, at: usize) -> Result<(), AllocError>
        ensures ok { OnOk result (Closes at self.old self.new) }
    {
        let Some(from) = self.held else {
            return Ok(());
        };
        self.slices.push(Slice { from, to: at })?;
        self.held = None;
        Ok(())
    }

    /// Takes the gap after an event, by whether the run is outside pauses there.
    fn pass(&mut self, at: usize, shown: bool) -> Result<(), AllocError>
        ensures ok { OnOk result (Passes shown at self.old self.new) }
    {
        if shown {
            self.held = Some(self.held.unwrap_or(at));
            return Ok(());
        }
        self.close(at)
    }
}

/// Says whether a run is in a pause after an event without outputs.
fn core_pause(kind: &CoreEventKind, before: bool) -> bool
    ensures { PausesBy (acts.core_act kind.now) before result }
{
    match kind {
        CoreEventKind::RunStarted { .. } => before,
        CoreEventKind::StressSubRunStarted { .. } => before,
        CoreEventKind::SetupScriptStarted { .. } => before,
        CoreEventKind::SetupScriptSlow { .. } => before,
        CoreEventKind::TestStarted { .. } => before,
        CoreEventKind::TestSlow { .. } => before,
        CoreEventKind::TestRetryStarted { .. } => before,
        CoreEventKind::TestSkipped { .. } => before,
        CoreEventKind::RunBeginCancel { .. } => before,
        CoreEventKind::RunPaused { .. } => true,
        CoreEventKind::RunContinued { .. } => false,
        CoreEventKind::StressSubRunFinished { .. } => before,
        CoreEventKind::RunFinished { .. } => before,
    }
}

/// Says whether a run is in a pause after an event, by whether it was in one before.
fn pause_after<S: OutputSpec>(kind: &TestEventKindSummary<S>, before: bool) -> bool
    ensures { PausesBy (acts.act_of (plain_kind kind.now)) before result }
{
    match kind {
        TestEventKindSummary::Core(kind) => core_pause(kind, before),
        TestEventKindSummary::Output(_) => before,
    }
}

/// Says at which event a run of gaps like this one ends, by where that of the next one ends.
fn run_end(shown: &[bool], at: usize, end: usize) -> usize
    requires within { at < length shown.now }
    ensures { (suc at < length shown.now → IsRunEnd shown.now (suc at) end)
        → IsRunEnd shown.now at result }
{
    let next = at + 1;
    if next < shown.len() && shown[next] == shown[at] {
        return end;
    }
    next
}

/// Says of each gap, the last one first, at which event a run of gaps like it ends.
fn ends_of(alloc: Global, shown: &[bool]) -> Result<Vec<usize>, AllocError>
    ensures { IfOk result (λ ends. AreEnds shown.now ends.items) }
{
    let count = shown.len();
    let mut ends = Vec::new(alloc);
    let mut end = count;
    for index in 0..count {
        end = run_end(shown, count - 1 - index, end);
        ends.push(end)?;
    }
    Ok(ends)
}

/// Says whether a gap is of the wanted kind: outside pauses, or in one.
fn is_wanted(wanted: bool, is_shown: bool) -> bool
    ensures { result ≡ is_wanted wanted is_shown }
{
    if wanted { is_shown } else { !is_shown }
}

impl ShownGaps {
    /// Takes down after which of these events the run is outside pauses. They may be any in any
    /// order.
    ///
    /// # Errors
    ///
    /// `AllocError` means that there was not enough memory.
    pub fn new<S: OutputSpec>(
        alloc: Global,
        events: &[TestEventSummary<S>],
    ) -> Result<ShownGaps, AllocError>
        ensures { IfOk result (AreGaps (history group.Slot (map plain events.now))) }
    {
        let mut shown = Vec::new(alloc);
        let mut in_pause = false;
        for event in events {
            in_pause = pause_after(&event.kind, in_pause);
            shown.push(!in_pause)?;
        }
        let ends = ends_of(alloc, shown.as_slice())?;
        Ok(ShownGaps { shown, ends })
    }

    /// Returns how many events there are.
    pub fn len(&self) -> usize
        ensures { result ≡ length self.now.shown.items }
    {
        self.shown.len()
    }

    /// Says at which event a run of gaps like this one ends.
    fn end_of(&self, at: usize) -> usize
        requires within { at < length self.now.shown.items }
        ensures later { at < result }
        ensures is { AreEnds self.now.shown.items self.now.ends.items
            → IsRunEnd self.now.shown.items at result }
    {
        let index = self.shown.len() - 1 - at;
        let end = self.ends.get(index).copied();
        end.unwrap_or(at).max(at + 1)
    }

    /// Says whether the run is in a pause at an event.
    fn in_pause(&self, at: usize) -> bool
        requires within { at ≤ length self.now.shown.items }
        ensures { (history : List TraceInput) → AreGaps history self.now
            → result ≡ in_pause history at }
    {
        at > 0 && !self.shown[at - 1]
    }

    /// Says whether an event stands at a position, and the run is in a pause there.
    fn stops_in_pause(&self, at: usize) -> bool
        requires within { at ≤ length self.now.shown.items }
        ensures { (history : List TraceInput) → AreGaps history self.now
            → result ≡ (nat_lt at (length history) && in_pause history at) }
    {
        at < self.len() && self.in_pause(at)
    }

    /// Cuts the longest stretches of gaps of a kind out of those from one event to another.
    fn cut(
        &self,
        cutter: Cutter,
        from: usize,
        to: usize,
        wanted: bool,
    ) -> Result<Cutter, AllocError>
        requires order { from ≤ to }
        requires within { to ≤ length self.now.shown.items }
        ensures { IfOk result
            (λ cut. (history : List TraceInput) → AreGaps history self.now
            → Becomes (passes_for wanted history) cutter from (to - from)
            (pairs cut.slices.items)) }
    {
        let mut cutter = cutter;
        let mut at = from;
        while at < to {
            let end = self.end_of(at).min(to);
            cutter.pass(at, is_wanted(wanted, self.shown[at]))?;
            at = end;
        }
        cutter.close(to)?;
        Ok(cutter)
    }

    /// Cuts what lasts from one event to another into its slices: the longest stretches of gaps
    /// between events in which the run is outside pauses, and the instants at a start and at an end
    /// in a pause.
    ///
    /// # Errors
    ///
    /// `AllocError` means that there was not enough memory.
    pub fn slices(&self, alloc: Global, from: usize, to: usize) -> Result<Vec<Slice>, AllocError>
        requires order { from ≤ to }
        requires within { to ≤ length self.now.shown.items }
        ensures { IfOk result
            (λ cut. (history : List TraceInput) → AreGaps history self.now
            → pairs cut.items ≡ all_slices history from to) }
    {
        let mut cutter = Cutter::new(alloc);
        cutter.add_instant(from, self.in_pause(from))?;
        let mut cutter = self.cut(cutter, from, to, true)?;
        cutter.add_instant(to, self.stops_in_pause(to))?;
        Ok(cutter.slices)
    }

    /// Lists the pauses of the run: the longest stretches of gaps between events in which it is in
    /// a pause. One that the last event doesn't end lasts to the number of events.
    ///
    /// # Errors
    ///
    /// `AllocError` means that there was not enough memory.
    pub fn pauses(&self, alloc: Global) -> Result<Vec<Slice>, AllocError>
        ensures { IfOk result
            (λ cut. (history : List TraceInput) → AreGaps history self.now
            → pairs cut.items ≡ pauses history) }
    {
        let cutter = self.cut(Cutter::new(alloc), 0, self.len(), false)?;
        Ok(cutter.slices)
    }
}

//! The setup scripts of a run, and where each ends.
ghost use Rattle.std.specs.Prelude.{◌≡◌, ◌∷◌, ℕ, suc, [], IfOk, List, OnOk};
ghost use Rattle.rec_spans.specs.Acts as acts;
ghost use Rattle.rec_spans.specs.Plain.{plain_kind, plain_output_kind};
ghost use Rattle.rec_view.specs.declared.scripts.ScriptAct as seen;
ghost use Rattle.rec_view.specs.Scripts.{script_act, script_acts, scripts};
ghost use Rattle.rec_view.specs.ScriptsWalked.{CutsScript, HasScripts, OpensScript};

use rec_events::{
    CoreEventKind, OutputEventKind, OutputSpec, TestEventKindSummary, TestEventSummary,
};
use std::alloc::{AllocError, Global};
use std::collections::BTreeMap;

/// Holds where a setup script stands among the events of its run, as numbers of events before it.
#[derive(Clone, Copy, Drop)]
pub struct ScriptView {
    /// How many events stand before the one that starts the script.
    pub from: u64,
    /// How many events stand before the first one that ends the script, or that starts another one
    /// of its index; `None` where no event does.
    pub to: Option<u64>,
}

/// Says what an event is for the setup scripts of a run.
#[derive(Clone, Copy)]
pub(crate) enum ScriptAct {
    Starts { index: usize },
    Ends { index: usize },
    Silent,
}

/// Says what an event without outputs is.
fn core_act(kind: &CoreEventKind) -> ScriptAct
    ensures { result ≡ script_act (acts.core_act kind.now) }
{
    match kind {
        CoreEventKind::RunStarted { .. } => ScriptAct::Silent,
        CoreEventKind::StressSubRunStarted { .. } => ScriptAct::Silent,
        CoreEventKind::SetupScriptStarted { index, .. } => ScriptAct::Starts { index: *index },
        CoreEventKind::SetupScriptSlow { .. } => ScriptAct::Silent,
        CoreEventKind::TestStarted { .. } => ScriptAct::Silent,
        CoreEventKind::TestSlow { .. } => ScriptAct::Silent,
        CoreEventKind::TestRetryStarted { .. } => ScriptAct::Silent,
        CoreEventKind::TestSkipped { .. } => ScriptAct::Silent,
        CoreEventKind::RunBeginCancel { .. } => ScriptAct::Silent,
        CoreEventKind::RunPaused { .. } => ScriptAct::Silent,
        CoreEventKind::RunContinued { .. } => ScriptAct::Silent,
        CoreEventKind::StressSubRunFinished { .. } => ScriptAct::Silent,
        CoreEventKind::RunFinished { .. } => ScriptAct::Silent,
    }
}

/// Says what an event with outputs is.
fn output_act<S: OutputSpec>(kind: &OutputEventKind<S>) -> ScriptAct
    ensures { result ≡ script_act (acts.output_act (plain_output_kind kind.now)) }
{
    match kind {
        OutputEventKind::SetupScriptFinished { index, .. } => ScriptAct::Ends { index: *index },
        OutputEventKind::TestAttemptFailedWillRetry { .. } => ScriptAct::Silent,
        OutputEventKind::TestFinished { .. } => ScriptAct::Silent,
    }
}

/// Says what an event is.
fn act_of<S: OutputSpec>(kind: &TestEventKindSummary<S>) -> ScriptAct
    ensures { result ≡ script_act (acts.act_of (plain_kind kind.now)) }
{
    match kind {
        TestEventKindSummary::Core(kind) => core_act(kind),
        TestEventKindSummary::Output(kind) => output_act(kind),
    }
}

/// Keeps the setup scripts of the events from one on.
#[derive(Drop)]
pub(crate) struct Scripts {
    /// The scripts, the last one first.
    views: Vec<ScriptView>,
    /// At which event what is open of an index is cut first.
    cuts: BTreeMap<usize, u64>,
}

impl Scripts {
    /// Begins behind the last event.
    fn new(alloc: Global) -> Scripts
        ensures { (at : ℕ) → HasScripts at [] result }
    {
        Scripts {
            views: Vec::new(alloc),
            cuts: BTreeMap::new(alloc),
        }
    }

    /// Puts a script of an index in front of the others.
    fn open(&mut self, at: u64, index: usize) -> Result<(), AllocError>
        ensures ok { OnOk result (OpensScript at index self.old self.new) }
    {
        let to = self.cuts.get(&index).copied();
        self.views.push(ScriptView { from: at, to })?;
        Ok(())
    }

    /// Cuts what is open of an index.
    fn cut(&mut self, at: u64, index: usize) -> Result<(), AllocError>
        ensures ok { OnOk result (CutsScript at index self.old self.new) }
    {
        self.cuts.insert(index, at)?;
        Ok(())
    }

    /// Takes the event before those so far.
    fn take(&mut self, at: u64, act: ScriptAct) -> Result<(), AllocError>
        ensures ok { OnOk result
            ((after : List seen.ScriptAct) → HasScripts (suc at) after self.old
            → HasScripts at (act ∷ after) self.new) }
    {
        match act {
            ScriptAct::Starts { index } => {
                self.open(at, index)?;
                self.cut(at, index)
            }
            ScriptAct::Ends { index } => self.cut(at, index),
            ScriptAct::Silent => Ok(()),
        }
    }
}

/// Lists the setup scripts of a run, in the order of the events that start them.
pub(crate) fn scripts_of<S: OutputSpec>(
    alloc: Global,
    events: &[TestEventSummary<S>],
) -> Result<Vec<ScriptView>, AllocError>
    ensures { IfOk result (λ views. views.items ≡ scripts (script_acts events.now)) }
{
    let mut scripts = Scripts::new(alloc);
    let mut at = events.len();
    while at > 0 {
        at -= 1;
        let act = act_of(&events[at].kind);
        scripts.take(at as u64, act)?;
    }
    let mut views = scripts.views;
    views.as_mut_slice().reverse();
    Ok(views)
}

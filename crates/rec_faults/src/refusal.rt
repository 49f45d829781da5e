//! Why the program doesn't do what it is asked: the line that says it, and the status.
ghost use Rattle.std.specs.Prelude.{◌≡◌, ℕ};
ghost use Rattle.rec_faults.specs.FaultLine.{Shown, line, shown_text};
ghost use Rattle.rec_faults.specs.WritingFaults.{Writes, WritesFault};

use crate::line::Line;
use rec_container::Sink;

/// Gives a refusal its line and its status, as `docs/CLI.md#statuses-and-lines` lists them.
///
/// The line is the name of the refusal, ` name=value` for each field in order of declaration, and
/// LF. A value may be a refusal again: then its name stands there, and its fields follow.
pub trait Refusal {
    /// Names what the line shows.
    ghost shown: { Self → Shown };

    /// Names the status that the program ends with.
    ghost status_of: { Self → ℕ };

    /// Writes the line without its LF, alone or within the line of another refusal.
    /// It takes no memory.
    fn write<G: Sink>(&self, line: Line, diag: &mut G) -> Line
        ensures { Writes G.taken G.faults (shown_text (shown self.now)) line.is_failed diag.old
            result.is_failed diag.new };

    /// Returns the status.
    fn status(&self) -> u8
        ensures { result ≡ status_of self.now };
}

/// Writes the line of a refusal to `diag`. It takes no memory.
///
/// A fault of `diag` ends the writing, and is written nowhere.
pub fn write_fault<F: Refusal, G: Sink>(fault: &F, diag: &mut G)
    ensures { WritesFault G.taken G.faults diag.old diag.new (line (F.shown fault.now)) }
{
    let _ = fault.write(Line::new(), diag).name("\n", diag);
}

/// Writes the line of a refusal to `diag`, and returns its status.
pub fn refuse<F: Refusal + Drop, G: Sink>(fault: F, diag: &mut G) -> u8
    ensures line { WritesFault G.taken G.faults diag.old diag.new (line (F.shown fault)) }
    ensures status { result ≡ F.status_of fault }
{
    write_fault(&fault, diag);
    let status = fault.status();
    // By a call: in place, each error inside would be a case of the proof.
    drop(fault);
    status
}

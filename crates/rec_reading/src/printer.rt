//! What prints the events of a run.
ghost use Rattle.std.specs.Prelude.{◌≡◌, ◌++◌, ◌∷◌, [], List, OnOk};
ghost use Rattle.rec_events.specs.declared.live_events.TestEvent.{TestEvent};
ghost use Rattle.rec_reading.specs.Printing.{Adds, IsBlind, Prints};

use rec_errors::ReadingError;
use rec_events::TestEvent;
use std::alloc::Global;

/// Prints the events of a run, one after the other.
pub(crate) trait EventPrinter {
    /// Names the text of an event after others, or why it is refused.
    ghost prints: { Self → Prints };

    /// Says that these events were printed.
    ghost stands: { Self → List TestEvent → Type 0 };

    /// Adds the text of an event.
    ///
    /// # Errors
    ///
    /// Why the event is refused, or `OutOfMemory`. What is left of the text then is not said.
    fn print(
        &mut self,
        alloc: Global,
        event: &TestEvent<'_>,
        text: &mut Vec<u8>,
    ) -> Result<(), ReadingError>
        ensures adds { (past : List TestEvent)
            → stands self.old past
            → Adds (prints self.old past event.now) text.old.items text.new.items result }
        ensures stands { (past : List TestEvent)
            → stands self.old past
            → OnOk result (stands self.new (past ++ event.now ∷ [])) }
        ensures same { prints self.new ≡ prints self.old };

    /// States that it doesn't matter where the tests of a run stand in memory.
    ghost blind: { (printer : Self) → IsBlind (prints printer) };
}

//! Laws of sessions. The functions do nothing: their contracts are what they are for.
ghost use Rattle.std.specs.Prelude.{◌≡◌, ◌<◌, ◌^◌, [], List, ℕ, length, Some, None};
ghost use Rattle.rec_format.specs.declared.head.SessionHead.{SessionHead};
ghost use Rattle.rec_store.specs.Bundle.{run_bundle};
ghost use Rattle.rec_store.specs.Reading.{IsReading, recorded};
ghost use Rattle.rec_export.specs.Bundle.{count_refusal, session_events, session_head};
ghost use Rattle.rec_export.specs.declared.settings.Settings.{Settings};
ghost use Rattle.rec_export.specs.Session.{event_lines, lines_refusal, session_lines};

/// States that the bundle of a session is read as what was recorded of it: its head, and its events
/// with each output cut. Line 1 is a head, no other line is refused, and the bundle's length, the
/// session's and the numbers of outputs are u64s. It holds whatever a reader's limit is, and also
/// where the session has no trace.
pub fn bundles_of_sessions_read()
    ensures { (number : List ℕ → ℕ) (settings : Settings) (session : List ℕ) (head : SessionHead)
        → ((bytes : List ℕ) → number bytes < 2 ^ 64)
        → session_head session ≡ Some head
        → lines_refusal number settings.max_output [] (event_lines (session_lines session)) ≡ None
        → count_refusal number settings head (session_events session) ≡ None
        → length session < 2 ^ 64
        → IsReading (run_bundle number settings.max_output head (session_events session))
        (recorded number settings.max_output head (session_events session)) }
{}

//! The head of a session.
ghost use Rattle.std.specs.Option.{option_map};
ghost use Rattle.std.specs.Prelude.{◌≡◌, ◌⊎◌, None, Some, IfOk, IfErr};
ghost use Rattle.rec_format.specs.HeadForms.{IsHead};
ghost use Rattle.rec_errors.specs.declared.export_error.RecordExportError.TheVariants.{
  OutOfMemory,
  ParseHead,
};
ghost use Rattle.rec_export.specs.Bundle.{head_in};
ghost use Rattle.rec_export.specs.Session.{head_text};

use crate::session_lines::SessionLines;
use rec_errors::RecordExportError;
use rec_format::SessionHead;
use rec_forms::{FromValueError, read_text};
use std::alloc::Global;

/// Returns the first line, where it is a text.
pub fn head_line(lines: &SessionLines) -> Option<&str>
    ensures { option_map (λ text. text.now) result ≡ head_text lines.now }
{
    lines.first()?.text()
}

/// Reads the head of a session from the text of its first line.
///
/// # Errors
///
/// `ParseHead` where there is no text, or one that is no head; `OutOfMemory` where memory ran out.
pub fn read_head(alloc: Global, text: Option<&str>) -> Result<SessionHead, RecordExportError>
    ensures known { IfOk result IsHead }
    ensures head { IfOk result (λ head. head_in (option_map (λ t. t.now) text.entry) ≡ Some head) }
    ensures err { IfErr result
        (λ e. (e ≡ OutOfMemory)
        ⊎ ((e ≡ ParseHead) × (head_in (option_map (λ t. t.now) text.entry) ≡ None))) }
{
    let Some(text) = text else {
        return Err(RecordExportError::ParseHead);
    };
    match read_text(alloc, text.as_bytes()) {
        Ok(head) => Ok(head),
        Err(FromValueError::NotAValue) => Err(RecordExportError::ParseHead),
        Err(FromValueError::OutOfMemory) => Err(RecordExportError::OutOfMemory),
    }
}

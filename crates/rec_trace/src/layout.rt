//! Lays JSON texts out over several lines.
ghost use Rattle.std.specs.Prelude.{◌≡◌, ◌++◌, IfOk, OnOk};
ghost use Rattle.json.specs.Layout.{pretty};
ghost use Rattle.json.specs.Lex.{tokens};
ghost use Rattle.json.specs.Print.{ArePrintable};

use json::{Pretty, Reader, Scratch, Token};
use std::alloc::{AllocError, Global};

/// Writes the tokens of a JSON text.
pub fn write_tokens(mut reader: Reader<'_>, lines: &mut Pretty) -> Result<(), AllocError>
    ensures { OnOk result (ArePrintable reader.entry → lines.new ≡ lines.old ++ reader.entry) }
{
    while let Some(token) = reader.next() {
        // No token of a JSON text is bad.
        if let Token::Bad = token {
            return Ok(());
        }
        lines.token(token)?;
    }
    Ok(())
}

/// Lays a JSON text in one line out over several.
///
/// # Errors
///
/// Fails only where memory ran out.
pub fn lay_out(alloc: Global, text: &str) -> Result<Vec<u8>, AllocError>
    ensures { IfOk result
        (λ s. ArePrintable (tokens text.now) → s.items ≡ pretty (tokens text.now)) }
{
    let mut scratch = Scratch::new(alloc);
    let reader = Reader::new(text, &mut scratch)?;
    let mut lines = Pretty::new(alloc);
    write_tokens(reader, &mut lines)?;
    Ok(lines.into_inner())
}

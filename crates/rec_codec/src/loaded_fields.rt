//! Fields that hold outputs, which are written among others and may not be there.
ghost use Rattle.std.specs.Prelude.{◌≡◌, ◌++◌, ◌∷◌, [], IfOk, List, OnOk, Some, false};
ghost use Rattle.json.specs.Token as token;
ghost use Rattle.json.specs.Token.{Token, begin_object};
ghost use Rattle.rec_json.specs.Fields.{Field, in_order, struct};
ghost use Rattle.rec_json.specs.Tokens.{value_tokens, with_fields};
ghost use Rattle.rec_forms.specs.ObjectWriting.{Writes};
ghost use Rattle.rec_codec.specs.LoadedWriting.{Ends, GoesOnLoaded};

use crate::loaded_form::LoadedForm;
use crate::{OutputForm, ToValueError};
use rec_forms::ObjectWriter;
use rec_json::JsonText;
use std::alloc::{AllocError, Global};

/// Goes on with a field that holds outputs.
pub fn with_loaded<T: LoadedForm>(
    alloc: Global,
    object: ObjectWriter,
    text: &mut JsonText,
    key: &str,
    item: &T,
) -> Result<ObjectWriter, ToValueError>
    ensures written { IfOk result (λ after. Writes object text.old after text.new
        ((key.now, Some (T.value_of item.now)) ∷ []) (T.well_formed item.now)) }
    ensures loaded { GoesOnLoaded result (T.loaded item.now) }
{
    begin_field(object, text, key)?;
    item.write(alloc, text)?;
    Ok(ObjectWriter::resume(alloc))
}

/// Goes on with a field that is an output.
pub fn with_output<S: OutputForm>(
    alloc: Global,
    object: ObjectWriter,
    text: &mut JsonText,
    key: &str,
    output: &S::ChildOutput,
) -> Result<ObjectWriter, ToValueError>
    ensures written { IfOk result (λ after. Writes object text.old after text.new
        ((key.now, Some (S.output_value output.now)) ∷ []) (S.output_well_formed output.now)) }
    ensures loaded { GoesOnLoaded result (S.loaded output.now) }
{
    begin_field(object, text, key)?;
    S::output_write(alloc, output, text)?;
    Ok(ObjectWriter::resume(alloc))
}

/// Writes the key of a field.
pub fn begin_field(object: ObjectWriter, text: &mut JsonText, key: &str) -> Result<(), AllocError>
    ensures goes { OnOk result (object ≡ false) }
    ensures begun { OnOk result (text.new ≡ text.old ++ token.key key.now ∷ []) }
{
    object.leave_open()?;
    text.key(key)
}

/// Leaves an object with outputs open, for who goes on with it.
pub fn left_open(object: ObjectWriter) -> Result<(), ToValueError>
    ensures { Ends result object }
{
    Ok(object.leave_open()?)
}

/// Closes an object with outputs.
pub fn ended(object: ObjectWriter, text: &mut JsonText) -> Result<(), ToValueError>
    ensures written { (before : List Token) (fs : List Field)
        → (object ≡ false → text.old ≡ with_fields (before ++ begin_object ∷ []) (in_order fs))
        → OnOk result (text.new ≡ before ++ value_tokens (struct fs)) }
    ensures goes { Ends result object }
{
    Ok(object.end(text)?)
}

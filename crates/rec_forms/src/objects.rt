//! Objects that are written field by field, and judged once at the end.
ghost use Rattle.std.specs.Prelude.{◌≡◌, [], ◌∷◌, ◌++◌, List, ℕ, IfSome};
ghost use Rattle.std.specs.Prelude.{OnOk, Some, ⊤, false, option_map};
ghost use Rattle.json.specs.Token as token;
ghost use Rattle.json.specs.Token.{Token, begin_object};
ghost use Rattle.serde_json.specs.Data.{null, string};
ghost use Rattle.rec_json.specs.Fields.{Field, in_order, struct, tagged};
ghost use Rattle.rec_json.specs.Tokens.{value_tokens, with_field, with_fields};
ghost use Rattle.rec_events.specs.Names.{IsText};
ghost use Rattle.rec_forms.specs.ObjectWriting.{Writes};

use crate::Form;
use crate::fields::{write_field, write_optional};
use rec_json::JsonText;
use std::alloc::{AllocError, Global};
use std::marker::Model;

/// Writes the fields of an object, in the order of the bytes of their keys. Once memory runs out
/// nothing more is written, and what ends the object answers it.
/// A clause sees whether memory ran out.
///
/// # Examples
///
/// `{"name":"t1","runs":2}` is written by:
///
/// ```
/// ObjectWriter::begin(alloc, text)
///     .text(text, "name", "t1")
///     .field(text, "runs", &2)
///     .end(text)
/// ```
#[derive(Drop)]
pub struct ObjectWriter {
    alloc: Global,
    is_failed: bool,
}

impl Model for ObjectWriter {
    ghost use Rattle.std.specs.Prelude.{Bool};

    ghost Value = { Bool };

    ghost view = { λ w. w.is_failed };
}

impl ObjectWriter {
    /// Opens an object.
    pub fn begin(alloc: Global, text: &mut JsonText) -> ObjectWriter
        ensures { result ≡ false → text.new ≡ text.old ++ begin_object ∷ [] }
    {
        ObjectWriter {
            alloc,
            is_failed: text.begin_object().is_err(),
        }
    }

    /// Opens the object of a variant, as the only field of another one.
    pub fn begin_tagged(alloc: Global, text: &mut JsonText, tag: &str) -> ObjectWriter
        ensures { result ≡ false
            → text.new
            ≡ ((text.old ++ begin_object ∷ []) ++ token.key tag.now ∷ []) ++ begin_object ∷ [] }
    {
        ObjectWriter {
            alloc,
            is_failed: open_tagged(text, tag).is_err(),
        }
    }

    /// Goes on with an object that is open already.
    pub fn resume(alloc: Global) -> ObjectWriter
        ensures { result ≡ false }
    {
        ObjectWriter {
            alloc,
            is_failed: false,
        }
    }

    /// Writes a field: the value of `item` at `key`.
    pub fn field<T: Form>(self, text: &mut JsonText, key: &str, item: &T) -> ObjectWriter
        ensures { Writes self text.old result text.new
            ((key.now, Some (T.value_of item.now)) ∷ []) (T.well_formed item.now) }
    {
        if self.is_failed {
            return self;
        }
        ObjectWriter {
            alloc: self.alloc,
            is_failed: write_field(self.alloc, text, key, item).is_err(),
        }
    }

    /// Writes a field that is left out where there is no item.
    pub fn optional<T: Form>(self, text: &mut JsonText, key: &str, item: &Option<T>) -> ObjectWriter
        ensures { Writes self text.old result text.new
            ((key.now, option_map T.value_of item.now) ∷ []) (IfSome item.now T.well_formed) }
    {
        if self.is_failed {
            return self;
        }
        ObjectWriter {
            alloc: self.alloc,
            is_failed: write_optional(self.alloc, text, key, item).is_err(),
        }
    }

    /// Writes a field that is a text.
    pub fn text(self, text: &mut JsonText, key: &str, value: &str) -> ObjectWriter
        ensures { Writes self text.old result text.new
            ((key.now, Some (string value.now)) ∷ []) (IsText value.now) }
    {
        if self.is_failed {
            return self;
        }
        ObjectWriter {
            alloc: self.alloc,
            is_failed: write_text(text, key, value).is_err(),
        }
    }

    /// Writes a field that is `null`.
    pub fn null(self, text: &mut JsonText, key: &str) -> ObjectWriter
        ensures { Writes self text.old result text.new ((key.now, Some null) ∷ []) ⊤ }
    {
        if self.is_failed {
            return self;
        }
        ObjectWriter {
            alloc: self.alloc,
            is_failed: write_null(text, key).is_err(),
        }
    }

    /// Opens an object in a field.
    pub fn open(self, text: &mut JsonText, key: &str) -> ObjectWriter
        ensures goes { result ≡ false → self ≡ false }
        ensures opened { result ≡ false
            → text.new ≡ (text.old ++ token.key key.now ∷ []) ++ begin_object ∷ [] }
    {
        if self.is_failed {
            return self;
        }
        ObjectWriter {
            alloc: self.alloc,
            is_failed: open_object(text, key).is_err(),
        }
    }

    /// Closes an object that was opened in a field, and goes on with the object that has the field.
    pub fn close(self, text: &mut JsonText) -> ObjectWriter
        ensures goes { result ≡ false → self ≡ false }
        ensures closed { (before : List Token) (fs : List Field)
            → (self ≡ false → text.old ≡ with_fields (before ++ begin_object ∷ []) (in_order fs))
            → result ≡ false → text.new ≡ before ++ value_tokens (struct fs) }
    {
        if self.is_failed {
            return self;
        }
        ObjectWriter {
            alloc: self.alloc,
            is_failed: text.end_struct().is_err(),
        }
    }

    /// Closes the object.
    ///
    /// # Errors
    ///
    /// `AllocError` if memory ran out since the object was opened.
    pub fn end(self, text: &mut JsonText) -> Result<(), AllocError>
        ensures written { (before : List Token) (fs : List Field)
            → (self ≡ false → text.old ≡ with_fields (before ++ begin_object ∷ []) (in_order fs))
            → OnOk result (text.new ≡ before ++ value_tokens (struct fs)) }
        ensures goes { OnOk result (self ≡ false) }
    {
        if self.is_failed {
            return Err(AllocError);
        }
        text.end_struct()
    }

    /// Closes the object of a variant, and the one of which it is the only field.
    ///
    /// # Errors
    ///
    /// `AllocError` if memory ran out since the object was opened.
    pub fn end_tagged(self, text: &mut JsonText) -> Result<(), AllocError>
        ensures written { (before : List Token) (tag : List ℕ) (fs : List Field)
            → (self ≡ false
            → text.old ≡ with_fields
            (((before ++ begin_object ∷ []) ++ token.key tag ∷ []) ++ begin_object ∷ [])
            (in_order fs))
            → OnOk result (text.new ≡ before ++ value_tokens (tagged tag (struct fs))) }
        ensures goes { OnOk result (self ≡ false) }
    {
        if self.is_failed {
            return Err(AllocError);
        }
        close_tagged(text)
    }

    /// Leaves the object open, for who goes on with it.
    ///
    /// # Errors
    ///
    /// `AllocError` if memory ran out.
    pub fn leave_open(self) -> Result<(), AllocError>
        ensures { OnOk result (self ≡ false) }
    {
        if self.is_failed {
            return Err(AllocError);
        }
        Ok(())
    }
}

/// Opens an object as the only field of another one.
fn open_tagged(text: &mut JsonText, tag: &str) -> Result<(), AllocError>
    ensures { OnOk result
        (text.new
        ≡ ((text.old ++ begin_object ∷ []) ++ token.key tag.now ∷ []) ++ begin_object ∷ []) }
{
    text.begin_tagged(tag)?;
    text.begin_object()
}

/// Closes an object, and the one of which it is the only field.
fn close_tagged(text: &mut JsonText) -> Result<(), AllocError>
    ensures { (before : List Token) (tag : List ℕ) (fs : List Field)
        → text.old ≡ with_fields
        (((before ++ begin_object ∷ []) ++ token.key tag ∷ []) ++ begin_object ∷ []) (in_order fs)
        → OnOk result (text.new ≡ before ++ value_tokens (tagged tag (struct fs))) }
{
    text.end_struct()?;
    text.end_tagged()?;
    Ok(())
}

/// Opens an object in a field.
fn open_object(text: &mut JsonText, key: &str) -> Result<(), AllocError>
    ensures { OnOk result (text.new ≡ (text.old ++ token.key key.now ∷ []) ++ begin_object ∷ []) }
{
    text.key(key)?;
    text.begin_object()
}

/// Writes a field that is a text.
fn write_text(text: &mut JsonText, key: &str, value: &str) -> Result<(), AllocError>
    ensures written { OnOk result
        (text.new ≡ with_field key.now (Some (string value.now)) text.old) }
    ensures known { OnOk result (IsText value.now) }
{
    text.key(key)?;
    text.string(value)
}

/// Writes a field that is `null`.
fn write_null(text: &mut JsonText, key: &str) -> Result<(), AllocError>
    ensures { OnOk result (text.new ≡ (text.old ++ token.key key.now ∷ []) ++ value_tokens null) }
{
    text.key(key)?;
    text.null()
}

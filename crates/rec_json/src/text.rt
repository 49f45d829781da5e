//! A JSON text that is being written.
ghost use Rattle.std.specs.Prelude.{◌≡◌, ℕ, List, [], ◌∷◌, ◌++◌, OnOk, Some, IsTrue, string_bytes};
ghost use Rattle.std.specs.Str.{is_utf8};
ghost use Rattle.json.specs.Print.{print};
ghost use Rattle.json.specs.Token.{Token, begin_array, begin_object, end_array, end_object, key};
ghost use Rattle.serde_json.specs.Data.{Data, array, boolean, null, string};
ghost use Rattle.serde_json.specs.View.{items_of};
ghost use Rattle.serde_json.specs.Written.{compact_text};
ghost use Rattle.rec_json.specs.Fields.{Field, KeysAscend, in_order};
ghost use Rattle.rec_json.specs.Fields.{integer, natural, struct, tagged};
ghost use Rattle.rec_json.specs.Tokens.{value_tokens, with_field, with_fields, with_items};

use json::Writer;
use std::alloc::{AllocError, Global};
use std::marker::Model;

/// Holds a JSON text that is being written, in one line and without spaces.
/// A clause sees its tokens.
///
/// It puts commas and colons. Whoever writes closes each object and each list that was opened, and
/// writes the fields of an object in the order of the bytes of their keys.
///
/// # Examples
///
/// `{"name":"t1","runs":[1,2]}` is written by:
///
/// ```
/// let mut text = JsonText::new(alloc);
/// text.begin_object()?;
/// text.key("name")?;
/// text.string("t1")?;
/// text.key("runs")?;
/// text.begin_array()?;
/// text.natural(1)?;
/// text.natural(2)?;
/// text.end_list()?;
/// text.end_struct()?;
/// ```
#[derive(Drop)]
pub struct JsonText {
    writer: Writer,
}

impl Model for JsonText {
    ghost use Rattle.std.specs.Prelude.{◌≡◌, [], List};
    ghost use Rattle.json.specs.Token.{Token, tokens_code};

    ghost Value = { List Token };

    ghost coded = { tokens_code };

    ghost view = { λ t. t.writer.tokens };

    ghost invariant = { λ t. t.writer.before ≡ [] };
}

impl JsonText {
    /// Begins a text. It takes no memory yet.
    pub fn new(alloc: Global) -> JsonText
        ensures { result ≡ [] }
    {
        JsonText {
            writer: Writer::new(Vec::new(alloc)),
        }
    }

    /// Returns the bytes that were written. Where they are those of one value,
    /// they are its compact text.
    #[tactic(auto, using(crate::proofs::WriteLaws::print_value))]
    pub fn into_bytes(self) -> Vec<u8>
        ensures text { result.items ≡ print self }
        ensures compact { (d : Data) → self ≡ value_tokens d → result.items ≡ compact_text d }
        ensures utf8 { IsTrue (is_utf8 result.items) }
    {
        self.writer.into_inner()
    }

    /// Returns the text that was written. Where it is that of one value, it is its compact text.
    pub fn into_text(self) -> String
        ensures text { string_bytes result ≡ print self }
        ensures compact { (d : Data) → self ≡ value_tokens d
            → string_bytes result ≡ compact_text d }
    {
        String::from_utf8(self.into_bytes()).unwrap()
    }

    /// Opens an object.
    pub fn begin_object(&mut self) -> Result<(), AllocError>
        ensures { OnOk result (self.new ≡ self.old ++ begin_object ∷ []) }
    {
        self.writer.begin_object()
    }

    /// Closes an object that was written field by field, in the order of the bytes of the keys.
    pub fn end_struct(&mut self) -> Result<(), AllocError>
        ensures { (before : List Token) (fs : List Field)
            → self.old ≡ with_fields (before ++ begin_object ∷ []) (in_order fs)
            → OnOk result (self.new ≡ before ++ value_tokens (struct fs)) }
    {
        self.close_object()?;
        Ok(())
    }

    /// Closes an object that was written field by field, with keys that ascend by their bytes, as
    /// those of a map do.
    pub fn end_map(&mut self) -> Result<(), AllocError>
        ensures { (before : List Token) (fs : List Field) → KeysAscend fs
            → self.old ≡ with_fields (before ++ begin_object ∷ []) fs
            → OnOk result (self.new ≡ before ++ value_tokens (struct fs)) }
    {
        self.close_object()?;
        Ok(())
    }

    /// Opens an object of one field, as a variant with fields is written. The value of the field is
    /// to follow.
    pub fn begin_tagged(&mut self, tag: &str) -> Result<(), AllocError>
        ensures { OnOk result (self.new ≡ (self.old ++ begin_object ∷ []) ++ key tag.now ∷ []) }
    {
        self.begin_object()?;
        self.key(tag)
    }

    /// Closes an object of one field, as a variant with fields is written.
    pub fn end_tagged(&mut self) -> Result<(), AllocError>
        ensures { (before : List Token) (tag : List ℕ) (d : Data)
            → self.old ≡ with_field tag (Some d) (before ++ begin_object ∷ [])
            → OnOk result (self.new ≡ before ++ value_tokens (tagged tag d)) }
    {
        self.close_object()?;
        Ok(())
    }

    fn close_object(&mut self) -> Result<(), AllocError>
        ensures { OnOk result (self.new ≡ self.old ++ end_object ∷ []) }
    {
        self.writer.end_object()
    }

    /// Opens a list.
    pub fn begin_array(&mut self) -> Result<(), AllocError>
        ensures { OnOk result (self.new ≡ self.old ++ begin_array ∷ []) }
    {
        self.writer.begin_array()
    }

    /// Closes a list that was written item by item.
    pub fn end_list(&mut self) -> Result<(), AllocError>
        ensures { (before : List Token) (ds : List Data)
            → self.old ≡ with_items (before ++ begin_array ∷ []) ds
            → OnOk result (self.new ≡ before ++ value_tokens (array (items_of ds))) }
    {
        self.close_array()?;
        Ok(())
    }

    fn close_array(&mut self) -> Result<(), AllocError>
        ensures { OnOk result (self.new ≡ self.old ++ end_array ∷ []) }
    {
        self.writer.end_array()
    }

    /// Writes the key of a field. Its value is to follow.
    pub fn key(&mut self, name: &str) -> Result<(), AllocError>
        ensures { OnOk result (self.new ≡ self.old ++ key name.now ∷ []) }
    {
        self.writer.key(name)
    }

    /// Writes `null`.
    #[tactic(auto, unfolding(crate::specs::Tokens::value_tokens))]
    pub fn null(&mut self) -> Result<(), AllocError>
        ensures { OnOk result (self.new ≡ self.old ++ value_tokens null) }
    {
        self.writer.null()
    }

    /// Writes a truth value.
    #[tactic(auto, unfolding(crate::specs::Tokens::value_tokens))]
    pub fn boolean(&mut self, value: bool) -> Result<(), AllocError>
        ensures { OnOk result (self.new ≡ self.old ++ value_tokens (boolean value)) }
    {
        self.writer.boolean(value)
    }

    /// Writes a natural number.
    #[tactic(auto, unfolding(crate::specs::Tokens::value_tokens))]
    pub fn natural(&mut self, number: u64) -> Result<(), AllocError>
        ensures { OnOk result (self.new ≡ self.old ++ value_tokens (natural number)) }
    {
        self.writer.u64(number)
    }

    /// Writes an integer.
    #[tactic(auto, unfolding(crate::specs::Tokens::value_tokens))]
    pub fn integer(&mut self, number: i64) -> Result<(), AllocError>
        ensures { OnOk result (self.new ≡ self.old ++ value_tokens (integer number)) }
    {
        self.writer.i64(number)
    }

    /// Writes a text, with its quotes and escapes.
    #[tactic(auto, unfolding(crate::specs::Tokens::value_tokens))]
    pub fn string(&mut self, text: &str) -> Result<(), AllocError>
        ensures { OnOk result (self.new ≡ self.old ++ value_tokens (string text.now)) }
    {
        self.writer.string(text)
    }
}

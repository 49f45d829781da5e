//! Laws of forms. The functions do nothing: their contracts are what they are for.
ghost use Rattle.std.specs.Prelude.{◌≡◌, ◌≤◌, ℕ, Some, IsTrue};
ghost use Rattle.std.specs.Str.{is_utf8};
ghost use Rattle.serde_json.specs.Data.{Data};
ghost use Rattle.serde_json.specs.Read.{max_depth, read};
ghost use Rattle.serde_json.specs.Written.{compact_text};
ghost use Rattle.rec_forms.specs.TextForm.{bytes_form};
ghost use Rattle.rec_forms.specs.Writable.{IsWritable};

use crate::Form;

/// States that the text of a writable value is UTF-8, and is read as this value.
pub fn writable_values_read_back()
    ensures read { (n : ℕ) (d : Data)
        → IsWritable n d
        → n ≤ max_depth
        → read (compact_text d) ≡ Some d }
    ensures utf8 { (n : ℕ) (d : Data)
        → IsWritable n d
        → n ≤ max_depth
        → IsTrue (is_utf8 (compact_text d)) }
{}

/// States that the text of a well-formed item is UTF-8, and is read as this item.
pub fn well_formed_items_read_back<T: Form>()
    ensures { (x : T)
        → T.well_formed x
        → bytes_form T.form_of (compact_text (T.value_of x)) ≡ Some x }
{}

/// States that an item for which a value stands is well-formed, whatever the value.
pub fn read_items_are_well_formed<T: Form>()
    ensures { (d : Data) (x : T) → T.form_of d ≡ Some x → T.well_formed x }
{}

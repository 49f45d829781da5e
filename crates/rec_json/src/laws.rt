//! Laws of fields. The functions do nothing: their contracts are what they are for.
ghost use Rattle.std.specs.Prelude.{◌≡◌, IsTrue, List};
ghost use Rattle.rec_json.specs.Fields.{Field, KeysAscend, keys_ascend, in_order};

/// States that fields whose keys ascend are in order as they stand, so that they need no sorting.
pub fn ascending_fields_are_in_order()
    ensures of_keys { (fs : List Field) → KeysAscend fs → in_order fs ≡ fs }
    ensures of_table { (fs : List Field) → IsTrue (keys_ascend fs) → in_order fs ≡ fs }
{}

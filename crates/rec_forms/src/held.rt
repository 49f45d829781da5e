//! What a program holds is well-formed.
ghost use Rattle.std.specs.Prelude.{IfSome};

use crate::Form;

/// Says of a type that each of its items that a program holds is well-formed, whether it is ever
/// written or not. What a bundle's manifest is made of has it: what is written of it is then read
/// as it, with no premise on the run.
pub trait Held: Form {
    /// States that the item is well-formed. It does nothing.
    fn held(&self)
        ensures { Self.well_formed self.now };
}

/// States that an item is well-formed where there is one. It does nothing.
pub fn held_optional<T: Held>(item: &Option<T>)
    ensures { IfSome item.now T.well_formed }
{
    if let Some(item) = item {
        item.held();
    }
}

//! Numbers and truth values.
ghost use Rattle.std.specs.Int.{w32, w64};
ghost use Rattle.std.specs.Prelude.{◌≡◌, ◌^◌, ◌<◌, ℕ, FitsSigned};

use crate::{Form, FromValueError, Held};
use rec_events::NonZeroCount;
use rec_json::{JsonText, Node};
use std::alloc::{AllocError, Global};

impl Form for u32 {
    ghost use Rattle.std.specs.Prelude.{refl};
    ghost use Rattle.rec_forms.specs.NumberLaws.{u32_back, u32_well_formed};
    ghost use Rattle.rec_forms.specs.NumberLaws.{u32_writable};
    ghost use Rattle.rec_forms.specs.Numbers.{u32_form};
    ghost use Rattle.rec_forms.specs.Shape.{natural};
    ghost use Rattle.rec_forms.specs.Writable.{within_depth};

    ghost well_formed = { λ n. n < 2 ^ 32 };

    ghost value_of = { natural };

    ghost form_of = { u32_form };

    ghost levels = { 0 };

    ghost reads_back = { u32_back };

    ghost reads_well_formed = { u32_well_formed };

    ghost writable = { u32_writable };

    ghost shallow = { within_depth refl };

    fn write(&self, _alloc: Global, text: &mut JsonText) -> Result<(), AllocError> {
        text.natural(u64::from(*self))
    }

    fn from_node(_alloc: Global, node: &Node<'_>) -> Result<u32, FromValueError> {
        match node.as_u64() {
            Some(n) if n < 1 << 32 => Ok(n as u32),
            _ => Err(FromValueError::NotAValue),
        }
    }
}

impl Held for u32 {
    fn held(&self) {
        // a number that is read is within its type
        let _number = *self;
    }
}

impl Form for u64 {
    ghost use Rattle.std.specs.Prelude.{refl};
    ghost use Rattle.rec_forms.specs.NumberLaws.{u64_back, u64_well_formed};
    ghost use Rattle.rec_forms.specs.Numbers.{u64_form};
    ghost use Rattle.rec_forms.specs.Shape.{natural};
    ghost use Rattle.rec_forms.specs.Writable.{natural_writable, within_depth};

    ghost well_formed = { λ n. n < 2 ^ 64 };

    ghost value_of = { natural };

    ghost form_of = { u64_form };

    ghost levels = { 0 };

    ghost reads_back = { u64_back };

    ghost reads_well_formed = { u64_well_formed };

    ghost writable = { natural_writable };

    ghost shallow = { within_depth refl };

    fn write(&self, _alloc: Global, text: &mut JsonText) -> Result<(), AllocError> {
        text.natural(*self)
    }

    fn from_node(_alloc: Global, node: &Node<'_>) -> Result<u64, FromValueError> {
        match node.as_u64() {
            Some(n) => Ok(n),
            None => Err(FromValueError::NotAValue),
        }
    }
}

impl Held for u64 {
    fn held(&self) {
        // a number that is read is within its type
        let _number = *self;
    }
}

impl Form for usize {
    ghost use Rattle.std.specs.Prelude.{refl};
    ghost use Rattle.rec_forms.specs.NumberLaws.{u64_back, u64_well_formed};
    ghost use Rattle.rec_forms.specs.Numbers.{u64_form};
    ghost use Rattle.rec_forms.specs.Shape.{natural};
    ghost use Rattle.rec_forms.specs.Writable.{natural_writable, within_depth};

    ghost well_formed = { λ n. n < 2 ^ 64 };

    ghost value_of = { natural };

    ghost form_of = { u64_form };

    ghost levels = { 0 };

    ghost reads_back = { u64_back };

    ghost reads_well_formed = { u64_well_formed };

    ghost writable = { natural_writable };

    ghost shallow = { within_depth refl };

    fn write(&self, _alloc: Global, text: &mut JsonText) -> Result<(), AllocError> {
        text.natural(*self as u64)
    }

    fn from_node(_alloc: Global, node: &Node<'_>) -> Result<usize, FromValueError> {
        match node.as_u64() {
            Some(n) => Ok(n as usize),
            None => Err(FromValueError::NotAValue),
        }
    }
}

impl Held for usize {
    fn held(&self) {
        // a number that is read is within its type
        let _number = *self;
    }
}

impl Form for i64 {
    ghost use Rattle.std.specs.Prelude.{refl};
    ghost use Rattle.rec_forms.specs.NumberLaws.{i64_back, i64_well_formed};
    ghost use Rattle.rec_forms.specs.Numbers.{i64_form};
    ghost use Rattle.rec_forms.specs.Shape.{integer};
    ghost use Rattle.rec_forms.specs.Writable.{integer_writable, within_depth};

    ghost well_formed = { FitsSigned w64 };

    ghost value_of = { integer };

    ghost form_of = { i64_form };

    ghost levels = { 0 };

    ghost reads_back = { i64_back };

    ghost reads_well_formed = { i64_well_formed };

    ghost writable = { integer_writable };

    ghost shallow = { within_depth refl };

    fn write(&self, _alloc: Global, text: &mut JsonText) -> Result<(), AllocError> {
        text.integer(*self)
    }

    fn from_node(_alloc: Global, node: &Node<'_>) -> Result<i64, FromValueError> {
        match node.as_i64() {
            Some(n) => Ok(n),
            None => Err(FromValueError::NotAValue),
        }
    }
}

impl Held for i64 {
    fn held(&self) {
        // a number that is read is within its type
        let _number = *self;
    }
}

impl Form for i32 {
    ghost use Rattle.std.specs.Prelude.{refl};
    ghost use Rattle.rec_forms.specs.NumberLaws.{i32_back, i32_well_formed};
    ghost use Rattle.rec_forms.specs.NumberLaws.{i32_writable};
    ghost use Rattle.rec_forms.specs.Numbers.{i32_form};
    ghost use Rattle.rec_forms.specs.Shape.{integer};
    ghost use Rattle.rec_forms.specs.Writable.{within_depth};

    ghost well_formed = { FitsSigned w32 };

    ghost value_of = { integer };

    ghost form_of = { i32_form };

    ghost levels = { 0 };

    ghost reads_back = { i32_back };

    ghost reads_well_formed = { i32_well_formed };

    ghost writable = { i32_writable };

    ghost shallow = { within_depth refl };

    fn write(&self, _alloc: Global, text: &mut JsonText) -> Result<(), AllocError> {
        text.integer(i64::from(*self))
    }

    fn from_node(_alloc: Global, node: &Node<'_>) -> Result<i32, FromValueError> {
        match node.as_i64() {
            Some(n) if -0x8000_0000 <= n && n <= 0x7fff_ffff => Ok(n as i32),
            _ => Err(FromValueError::NotAValue),
        }
    }
}

impl Held for i32 {
    fn held(&self) {
        // a number that is read is within its type
        let _number = *self;
    }
}

impl Form for bool {
    ghost use Rattle.std.specs.Prelude.{Bool, Some, refl};
    ghost use Rattle.serde_json.specs.Data.{boolean};
    ghost use Rattle.serde_json.specs.Find.{as_bool};
    ghost use Rattle.rec_forms.specs.WellFormedLaws.{any_well_formed};
    ghost use Rattle.rec_forms.specs.Writable.{boolean_writable, within_depth};

    ghost well_formed = { λ _. Unit {0} };

    ghost value_of = { boolean };

    ghost form_of = { as_bool };

    ghost levels = { 0 };

    ghost reads_back = { λ x _. refl };

    ghost reads_well_formed = { any_well_formed as_bool };

    ghost writable = { λ b _. boolean_writable b };

    ghost shallow = { within_depth refl };

    fn write(&self, _alloc: Global, text: &mut JsonText) -> Result<(), AllocError> {
        text.boolean(*self)
    }

    fn from_node(_alloc: Global, node: &Node<'_>) -> Result<bool, FromValueError> {
        match node.as_bool() {
            Some(b) => Ok(b),
            None => Err(FromValueError::NotAValue),
        }
    }
}

impl Form for NonZeroCount {
    ghost use Rattle.std.specs.Prelude.{refl};
    ghost use Rattle.rec_forms.specs.NumberLaws.{count_back, count_well_formed};
    ghost use Rattle.rec_forms.specs.NumberLaws.{count_writable};
    ghost use Rattle.rec_forms.specs.Numbers.{count_form, IsCount};
    ghost use Rattle.rec_forms.specs.Shape.{natural};
    ghost use Rattle.rec_forms.specs.Writable.{within_depth};

    ghost well_formed = { IsCount };

    ghost value_of = { natural };

    ghost form_of = { count_form };

    ghost levels = { 0 };

    ghost reads_back = { count_back };

    ghost reads_well_formed = { count_well_formed };

    ghost writable = { count_writable };

    ghost shallow = { within_depth refl };

    fn write(&self, alloc: Global, text: &mut JsonText) -> Result<(), AllocError> {
        self.get().write(alloc, text)
    }

    fn from_node(alloc: Global, node: &Node<'_>) -> Result<NonZeroCount, FromValueError> {
        let count = u32::from_node(alloc, node)?;
        NonZeroCount::new(count).ok_or(FromValueError::NotAValue)
    }
}

impl Held for NonZeroCount {
    fn held(&self) {
        // a count that is read is above 0
        let _number = self.get();
    }
}

//! Test groups.
ghost use Rattle.std.specs.Prelude.{◌≡◌, ◌≢◌, ◌↔◌, IsSome, IfSome, IsTrue, string_bytes, codes};
ghost use Rattle.std.specs.Str.{is_utf8};
ghost use Rattle.rec_events.specs.declared.groups.TestGroup.TheVariants.{Custom};
ghost use Rattle.rec_events.specs.Groups.{group_text};

use crate::{Text, TryClone};
use std::alloc::{AllocError, Global};
use std::marker::Model;

/// Spells the group of all tests that are in no other group.
const GLOBAL_GROUP: &str = "@global";

/// Names a test group of one's own: any text but `@global`.
#[derive(Drop)]
pub struct GroupName {
    text: Text,
}

impl Model for GroupName {
    ghost use Rattle.std.specs.Prelude.{List, ℕ, ◌≢◌, codes};

    ghost Value = { List ℕ };

    ghost view = { λ name. name.text };

    ghost invariant = { λ name. name.text ≢ codes "@global" };

    ghost inverse = { λ text. record { text = text } };
}

impl GroupName {
    /// Returns the name.
    pub fn as_str(&self) -> &str
        ensures value { result.now ≡ self.now }
        ensures utf8 { IsTrue (is_utf8 self.now) }
        ensures other { self.now ≢ codes "@global" }
    {
        self.text.as_str()
    }
}

impl TryClone for GroupName {
    fn try_clone(&self, alloc: Global) -> Result<GroupName, AllocError> {
        Ok(GroupName {
            text: self.text.try_clone(alloc)?,
        })
    }
}

/// Names the group that a test is in.
#[derive(Drop)]
pub enum TestGroup {
    /// The group of all tests that are in no other group.
    Global,
    /// A group of one's own.
    Custom(GroupName),
}

impl TestGroup {
    /// Makes the group of this name; `None` exactly for `@global`.
    pub fn custom(name: String) -> Option<TestGroup>
        ensures some { IsSome result ↔ (string_bytes name ≢ codes "@global") }
        ensures value { IfSome result (λ group. group ≡ Custom (string_bytes name)) }
    {
        if name.as_str() == GLOBAL_GROUP {
            return None;
        }
        Some(TestGroup::Custom(GroupName {
            text: Text::new(name),
        }))
    }

    /// Returns the group as it is written.
    pub fn text(&self) -> &str
        ensures { result.now ≡ group_text self.now }
    {
        match self {
            TestGroup::Global => GLOBAL_GROUP,
            TestGroup::Custom(name) => name.as_str(),
        }
    }
}

impl TryClone for TestGroup {
    fn try_clone(&self, alloc: Global) -> Result<TestGroup, AllocError> {
        match self {
            TestGroup::Global => Ok(TestGroup::Global),
            TestGroup::Custom(name) => Ok(TestGroup::Custom(name.try_clone(alloc)?)),
        }
    }
}

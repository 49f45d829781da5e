//! The suites of a run, in the order in which they first got a case.
ghost use Rattle.std.specs.List.{list_any};
ghost use Rattle.std.specs.Prelude.{◌≡◌, ◌<◌, ◌++◌, ◌∷◌, [], length, slice_index_or, slice_set};
ghost use Rattle.std.specs.Prelude.{position, false, None, is_some, OnOk, OnErr, IfOk, IfSome};
ghost use Rattle.std.specs.Vec.{vec_len, vec_capacity};
ghost use Rattle.indexmap.specs.IndexSet.{spare};
ghost use Rattle.rec_junit.specs.Suites.{new_suite, no_suites, same_key};
ghost use Rattle.rec_junit.specs.Suites.{with_addition, with_addition_at, with_more};

use crate::suite_keys::SuiteKey;
use crate::{JunitCase, JunitProperty, JunitSuite};
use indexmap::IndexSet;
use rec_events::Items;
use std::alloc::{AllocError, Global};
use std::marker::Model;
use std::mem;

/// Holds what an event adds to a report: a case, and properties of its suite.
#[derive(Drop)]
pub(crate) struct Addition {
    /// The key of the suite.
    pub key: SuiteKey,
    /// The case.
    pub case: JunitCase,
    /// What it says of the suite.
    pub properties: Items<JunitProperty>,
}

/// Holds the suites of a run so far. The key of each stands at its place among the keys.
#[derive(Drop)]
pub(crate) struct OpenSuites {
    keys: IndexSet<SuiteKey>,
    suites: Vec<JunitSuite>,
}

impl Model for OpenSuites {
    ghost use Rattle.std.specs.Prelude.{◌≡◌, length};
    ghost use Rattle.rec_junit.specs.Suites.{Suites};

    ghost Value = { Suites };

    ghost view = { λ s. record { keys = s.keys.keys; suites = s.suites.items } };

    ghost invariant = { λ s. length s.keys.keys ≡ length s.suites.items };
}

impl OpenSuites {
    /// Makes the suites of a run without cases: none.
    pub fn new(alloc: Global) -> OpenSuites
        ensures { result ≡ no_suites }
    {
        OpenSuites {
            keys: IndexSet::new(alloc),
            suites: Vec::new(alloc),
        }
    }

    /// Returns the suites.
    pub fn into_suites(self) -> Items<JunitSuite>
        ensures { result ≡ self.suites }
    {
        Items::new(self.suites)
    }

    /// Adds a case to the suite of its key, which comes last where it is new.
    ///
    /// # Errors
    ///
    /// `AllocError` means that there was not enough memory. The suites are as they were.
    pub fn add(&mut self, alloc: Global, addition: Addition) -> Result<(), AllocError>
        ensures added { OnOk result (self.new ≡ with_addition addition self.old) }
        ensures unchanged { OnErr result (self.new ≡ self.old) }
    {
        match place_of(&self.keys, &addition.key) {
            Some(place) => add_more(alloc, &mut self.suites, place, addition),
            None => add_suite(alloc, &mut self.keys, &mut self.suites, addition),
        }
    }
}

/// Adds a suite with this case.
fn add_suite(
    alloc: Global,
    keys: &mut IndexSet<SuiteKey>,
    suites: &mut Vec<JunitSuite>,
    addition: Addition,
) -> Result<(), AllocError>
    requires new { list_any (same_key addition.key) keys.old.keys ≡ false }
    ensures key { OnOk result (keys.new.keys ≡ keys.old.keys ++ (addition.key ∷ [])) }
    ensures suite { OnOk result
        (suites.new.items
        ≡ suites.old.items ++ (new_suite addition.key addition.case addition.properties ∷ [])) }
    ensures no_key { OnErr result (keys.new.keys ≡ keys.old.keys) }
    ensures no_suite { OnErr result (suites.new.items ≡ suites.old.items) }
{
    let Addition {
        key,
        case,
        properties,
    } = addition;
    let Ok(suite) = new_suite(alloc, &key, case, properties) else {
        drop(key);
        return Err(AllocError);
    };
    let Ok(()) = make_room(keys, suites) else {
        drop((key, suite));
        return Err(AllocError);
    };
    suites.push(suite).unwrap();
    // the key is new, and there is room for it
    let _ = keys.insert(key).unwrap();
    Ok(())
}

/// Makes room for one suite more.
fn make_room(keys: &mut IndexSet<SuiteKey>, suites: &mut Vec<JunitSuite>) -> Result<(), AllocError>
    ensures keys { keys.new.keys ≡ keys.old.keys }
    ensures suites { suites.new.items ≡ suites.old.items }
    ensures spare { OnOk result (0 < spare keys.new) }
    ensures room { OnOk result (vec_len suites.new < vec_capacity suites.new) }
{
    keys.reserve(1)?;
    suites.reserve(1)
}

/// Makes a suite of one case.
fn new_suite(
    alloc: Global,
    key: &SuiteKey,
    case: JunitCase,
    properties: Items<JunitProperty>,
) -> Result<JunitSuite, AllocError>
    ensures { IfOk result (λ suite. suite ≡ new_suite key.now case properties) }
{
    let Ok(cases) = one_item(alloc, case) else {
        drop(properties);
        return Err(AllocError);
    };
    let Ok(name) = key.suite_name(alloc) else {
        drop((cases, properties));
        return Err(AllocError);
    };
    Ok(JunitSuite {
        name,
        cases,
        properties,
    })
}

/// Makes the list of one case.
fn one_item(alloc: Global, case: JunitCase) -> Result<Items<JunitCase>, AllocError>
    ensures { IfOk result (λ cases. cases ≡ case ∷ []) }
{
    let mut cases = Vec::new(alloc);
    cases.push(case)?;
    Ok(Items::new(cases))
}

/// Returns the place of a key.
fn place_of(keys: &IndexSet<SuiteKey>, key: &SuiteKey) -> Option<usize>
    ensures place { result ≡ position (same_key key.now) keys.now.keys }
    ensures within { IfSome result (λ i. i < length keys.now.keys) }
    ensures found { is_some result ≡ list_any (same_key key.now) keys.now.keys }
{
    keys.get_index_of(key)
}

/// Adds a case, and properties, to the suite at this place.
fn add_more(
    alloc: Global,
    suites: &mut Vec<JunitSuite>,
    place: usize,
    addition: Addition,
) -> Result<(), AllocError>
    requires { place < length suites.old.items }
    ensures added { (d : _)
        → OnOk result
        (suites.new.items
        ≡ slice_set suites.old.items place
        (with_more addition.case addition.properties (slice_index_or suites.old.items place d))) }
    ensures unchanged { OnErr result (suites.new.items ≡ suites.old.items) }
    ensures count { length suites.new.items ≡ length suites.old.items }
{
    let Addition {
        case,
        properties,
        ..
    } = addition;
    extend_suite(alloc, &mut suites[place], case, properties)
}

/// Adds a case, and properties, to a suite.
fn extend_suite(
    alloc: Global,
    suite: &mut JunitSuite,
    case: JunitCase,
    properties: Items<JunitProperty>,
) -> Result<(), AllocError>
    ensures added { OnOk result (suite.new ≡ with_more case properties suite.old) }
    ensures unchanged { OnErr result (suite.new ≡ suite.old) }
{
    let mut cases = taken(alloc, &mut suite.cases);
    let mut all_properties = taken(alloc, &mut suite.properties);
    let result = extend(&mut cases, &mut all_properties, case, properties);
    suite.cases = Items::new(cases);
    suite.properties = Items::new(all_properties);
    result
}

/// Takes the items out of a list.
fn taken<T: Drop>(alloc: Global, items: &mut Items<T>) -> Vec<T>
    ensures { result.items ≡ items.old }
{
    mem::replace(items, Items::empty(alloc)).into_vec()
}

/// Adds a case to some, and properties to some.
fn extend(
    cases: &mut Vec<JunitCase>,
    properties: &mut Vec<JunitProperty>,
    case: JunitCase,
    more: Items<JunitProperty>,
) -> Result<(), AllocError>
    ensures case { OnOk result (cases.new.items ≡ cases.old.items ++ (case ∷ [])) }
    ensures properties { OnOk result (properties.new.items ≡ properties.old.items ++ more) }
    ensures no_case { OnErr result (cases.new.items ≡ cases.old.items) }
    ensures no_properties { OnErr result (properties.new.items ≡ properties.old.items) }
{
    let Ok(()) = extend_properties(cases, properties, more) else {
        drop(case);
        return Err(AllocError);
    };
    cases.push(case).unwrap();
    Ok(())
}

/// Adds properties to some, where there is room for one case more too.
fn extend_properties(
    cases: &mut Vec<JunitCase>,
    properties: &mut Vec<JunitProperty>,
    more: Items<JunitProperty>,
) -> Result<(), AllocError>
    ensures cases { cases.new.items ≡ cases.old.items }
    ensures room { OnOk result (vec_len cases.new < vec_capacity cases.new) }
    ensures properties { OnOk result (properties.new.items ≡ properties.old.items ++ more) }
    ensures no_properties { OnErr result (properties.new.items ≡ properties.old.items) }
{
    let mut more = more.into_vec();
    cases.reserve(1)?;
    properties.append(&mut more)
}

//! Looks a name up by halving.
ghost use Rattle.std.specs.Cmp.Lexicographic.{slice_cmp};
ghost use Rattle.std.specs.Map.{lookup};
ghost use Rattle.std.specs.Ordering.{nat_cmp};
ghost use Rattle.std.specs.Prelude.{◌≡◌, ◌+◌, ◌-◌, ◌*◌, ◌^◌, ◌≤◌, length};
ghost use Rattle.rec_container.specs.Sorted.{Ascend, is_named};

use crate::step_count::Steps;
use std::cmp::Ordering;
use std::marker::Brand;
use std::sync::ledger::{Blank, Ledger};

/// Compares two names, which is a step.
fn compare<L: Ledger>(a: &[u8], b: &[u8], steps: &mut Steps<L>) -> Ordering
    ensures order { result ≡ slice_cmp nat_cmp a.now b.now }
    ensures step { steps.new ≡ steps.old + 1 }
{
    steps.tick();
    a.cmp(b)
}

/// Returns the content under a name, among contents whose names ascend.
pub(crate) fn find<'a, L: Ledger>(
    sorted: &[(&'a str, &'a [u8])],
    name: &[u8],
    steps: &mut Steps<L>,
) -> Option<&'a [u8]>
    requires { Ascend sorted.now }
    ensures found { result ≡ lookup (is_named name.now) sorted.now }
    ensures later { steps.old ≤ steps.new }
    ensures cost { 2 ^ (steps.new - steps.old) ≤ 2 * length sorted.now + 1 }
{
    let mut from = 0;
    let mut to = sorted.len();
    while from < to {
        let middle = from + (to - from) / 2;
        let (held, content) = sorted[middle];
        match compare(name, held.as_bytes(), steps) {
            Ordering::Equal => return Some(content),
            Ordering::Less => to = middle,
            Ordering::Greater => from = middle + 1,
        }
    }
    None
}

/// Returns the content under a name, with steps that nobody reads.
fn find_in<'a, L: Ledger>(
    blank: Blank,
    sorted: &[(&'a str, &'a [u8])],
    name: &[u8],
) -> Option<&'a [u8]>
    requires name { blank.name ≡ L.name }
    requires parts { blank.parts ≡ L.parts }
    requires one { blank.parts ≡ 1 }
    requires ascend { Ascend sorted.now }
    ensures { result ≡ lookup (is_named name.now) sorted.now }
{
    let mut steps: Steps<L> = Steps::new(blank);
    find(sorted, name, &mut steps)
}

/// Returns the content under a name, among contents whose names ascend, where nobody counts.
pub(crate) fn find_uncounted<'a>(sorted: &[(&'a str, &'a [u8])], name: &[u8]) -> Option<&'a [u8]>
    requires { Ascend sorted.now }
    ensures { result ≡ lookup (is_named name.now) sorted.now }
{
    find_in::<Brand>(Blank::new(1), sorted, name)
}

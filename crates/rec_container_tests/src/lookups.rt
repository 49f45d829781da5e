//! How names are found, and how many comparisons that takes. A number of steps is known to clauses
//! alone, so the numbers here are clauses, and the tests run what they are about.
ghost use Rattle.std.specs.Prelude.{◌≡◌, ◌+◌, ◌≤◌, length};

use rec_container::*;
use std::alloc::Global;
use std::marker::Brand;
use std::process::Abort;
use std::sync::ledger::{Blank, Ledger};
use std::test::Fail;

/// Looks a name up among three entries, in at most two comparisons.
fn find_among_three<'a, L: Ledger>(
    container: &Container<'a>,
    name: &str,
    steps: &mut Steps<L>,
) -> Option<&'a [u8]>
    requires { length container.now.entries ≡ 3 }
    ensures { steps.new ≤ steps.old + 2 }
{
    container.get_counted(name, steps)
}

/// Looks a name up among at most 31 entries, in at most five comparisons.
fn find_among_31<'a, L: Ledger>(
    container: &Container<'a>,
    name: &str,
    steps: &mut Steps<L>,
) -> Option<&'a [u8]>
    requires { length container.now.entries ≤ 31 }
    ensures { steps.new ≤ steps.old + 5 }
{
    container.get_counted(name, steps)
}

/// Names, and whether they are to be found among three.
const SOUGHT: &[(&str, bool)] = &[
    ("a", true),
    ("b", true),
    ("c", true),
    ("", false),
    ("aa", false),
    ("d", false),
];

/// Three entries without content.
const THREE: &[u8] =
    b"nxtcont1\x01\0\x01b\0\0\0\0\0\0\0\0\x01\0\x01a\0\0\0\0\0\0\0\0\x01\0\x01c\0\0\0\0\0\0\0\0\0";

/// Whether exactly the names `a`, `b` and `c` are found, and are in the order `b`, `a`, `c`.
fn has_three<L: Ledger>(blank: Blank, alloc: Global, bytes: &[u8]) -> Result<bool, ContainerError>
    requires name { blank.name ≡ L.name }
    requires parts { blank.parts ≡ L.parts }
    requires one { blank.parts ≡ 1 }
{
    let container = Container::parse(alloc, bytes)?;
    if container.len() != 3 {
        return Ok(false);
    }
    let mut steps: Steps<L> = Steps::new(blank);
    for (name, is_there) in SOUGHT {
        let is_found = find_among_three(&container, name, &mut steps) == Some(b"".as_slice());
        if is_found != *is_there {
            return Ok(false);
        }
    }
    Ok(container.name(0) == "b" && container.name(1) == "a" && container.name(2) == "c")
}

#[test]
fn finds_among_three(rt: HostRuntime) -> Result<(), Fail> {
    assert!(rt; has_three::<Brand>(Blank::new(1), rt.alloc(), THREE)?);
    Ok(())
}

/// Whether each name is found where it is added, with itself as its content.
fn has_each<L: Ledger>(
    blank: Blank,
    alloc: Global,
    bytes: &[u8],
    count: usize,
) -> Result<bool, ContainerError>
    requires name { blank.name ≡ L.name }
    requires parts { blank.parts ≡ L.parts }
    requires one { blank.parts ≡ 1 }
{
    let container = Container::parse(alloc, bytes)?;
    if container.len() != count || count > 31 {
        return Ok(false);
    }
    let mut steps: Steps<L> = Steps::new(blank);
    for i in 0..container.len() {
        let name = container.name(i);
        if find_among_31(&container, name, &mut steps) != Some(name.as_bytes()) {
            return Ok(false);
        }
    }
    Ok(find_among_31(&container, "~", &mut steps).is_none())
}

/// Sixteen entries, each with its name as its content.
const SIXTEEN: &[u8] = b"nxtcont1\
    \x01\x00\x01p\x00\x00\x00\x00\x00\x00\x00\x01p\
    \x01\x00\x01a\x00\x00\x00\x00\x00\x00\x00\x01a\
    \x01\x00\x01o\x00\x00\x00\x00\x00\x00\x00\x01o\
    \x01\x00\x01b\x00\x00\x00\x00\x00\x00\x00\x01b\
    \x01\x00\x01n\x00\x00\x00\x00\x00\x00\x00\x01n\
    \x01\x00\x01c\x00\x00\x00\x00\x00\x00\x00\x01c\
    \x01\x00\x01m\x00\x00\x00\x00\x00\x00\x00\x01m\
    \x01\x00\x01d\x00\x00\x00\x00\x00\x00\x00\x01d\
    \x01\x00\x01l\x00\x00\x00\x00\x00\x00\x00\x01l\
    \x01\x00\x01e\x00\x00\x00\x00\x00\x00\x00\x01e\
    \x01\x00\x01k\x00\x00\x00\x00\x00\x00\x00\x01k\
    \x01\x00\x01f\x00\x00\x00\x00\x00\x00\x00\x01f\
    \x01\x00\x01j\x00\x00\x00\x00\x00\x00\x00\x01j\
    \x01\x00\x01g\x00\x00\x00\x00\x00\x00\x00\x01g\
    \x01\x00\x01i\x00\x00\x00\x00\x00\x00\x00\x01i\
    \x01\x00\x01h\x00\x00\x00\x00\x00\x00\x00\x01h\x00";

#[test]
fn finds_among_sixteen(rt: HostRuntime) -> Result<(), Fail> {
    assert!(rt; has_each::<Brand>(Blank::new(1), rt.alloc(), SIXTEEN, 16)?);
    Ok(())
}

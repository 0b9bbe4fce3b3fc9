//! Keys and their spellings.
ghost use Rattle.build_keys.specs.Keys.{HasPatterns};

use crate::key::Key;
use crate::laws::spelled_key_has_patterns;
use crate::order::key_order;
use crate::read::read_key;
use crate::write::{push_key, write_key};
use file_info::copied::Copied;
use file_info::list::{Bytes, List};
use file_info::name::Name;
use file_info::node::NodeName;
use file_info::path::PathName;
use file_info::same::Same;
use std::alloc::Global;
use std::cmp::Ordering;
use std::process::Abort;
use std::test::Fail;

// Reads a key from the front of the bytes, and sees that it has this length, or that there is none.
fn is_read_as(
    rt: &impl Abort,
    alloc: Global,
    bytes: &[u8],
    long: Option<usize>,
) -> Result<(), Fail> {
    let found = read_key(alloc, bytes)?;
    assert_eq!(rt; found.map(|x| x.1), long, "of {bytes:?}");
    Ok(())
}

#[test]
fn bytes_begin_with_a_key_or_with_none(rt: HostRuntime) -> Result<(), Fail> {
    for (bytes, long) in [
        // The command `all`, and one byte more.
        (b"\x02\0\0\0\x03all\xFF".as_slice(), Some(8)),
        (b"\x02\0\0\0\x03al".as_slice(), None),
        (b"".as_slice(), None),
        // No key has this tag.
        (b"\0\0\0\0\x03all".as_slice(), None),
        (b"\x07\0\0\0\x03all".as_slice(), None),
        // Texts that are no names.
        (b"\x01\0\0\0\0".as_slice(), None),
        (b"\x01\0\0\0\x01\n".as_slice(), None),
        (b"\x01\0\0\0\x01\xFF".as_slice(), None),
        // The count has four bytes.
        (b"\x01\0\0\x01a".as_slice(), None),
        (b"\x01\xFF\xFF\xFF\xFFa".as_slice(), None),
    ] {
        is_read_as(&rt, rt.alloc(), bytes, long)?;
    }
    Ok(())
}

#[test]
fn bytes_begin_with_a_key_of_a_path(rt: HostRuntime) -> Result<(), Fail> {
    for (bytes, long) in [
        // The node `src/lib.txt`.
        (b"\x03\0\0\0\0\x0Bsrc/lib.txt".as_slice(), Some(17)),
        (b"\x03\x01\0\0\0\x0Bsrc/lib.txt".as_slice(), Some(17)),
        (b"\x03\x02\0\0\0\x0Bsrc/lib.txt".as_slice(), None),
        // Paths that are not in normal form.
        (b"\x03\0\0\0\0\x02a/".as_slice(), None),
        (b"\x04\0\0\0\x04a//b".as_slice(), None),
        (b"\x04\0\0\0\x03/..".as_slice(), None),
        (b"\x04\0\0\0\x01.".as_slice(), Some(6)),
        // Patterns.
        (b"\x05\0\0\0\x01d\0\0\0\0".as_slice(), Some(10)),
        (b"\x05\0\0\0\x01d\xFF\xFF\xFF\xFF".as_slice(), None),
        (b"\x05\0\0\0\x01d\0\0\0\x01\0\0\0\x01\xFF".as_slice(), None),
        (
            b"\x06\0\0\0\x01d\0\0\0\x01\0\0\0\x05*.tmp!".as_slice(),
            Some(19),
        ),
    ] {
        is_read_as(&rt, rt.alloc(), bytes, long)?;
    }
    Ok(())
}

// Writes the key after a byte, reads it there, and writes what was read.
fn is_read_again(rt: &impl Abort, alloc: Global, key: &Key) -> Result<(), Fail>
    requires { HasPatterns key.now }
{
    let mut bytes = Bytes::new(alloc);
    bytes.push(0xFF)?;
    write_key(alloc, key, &mut bytes)?;
    assert_eq!(rt; bytes.get(0).copied(), Some(0xFF));
    let bytes = bytes.into_vec();
    let Some((found, long)) = read_key(alloc, &bytes[1..])? else {
        assert!(rt; false, "nothing was read");
        return Ok(());
    };
    assert_eq!(rt; long + 1, bytes.len());
    assert!(rt; found.same(key));
    let mut again = Vec::new(alloc);
    push_key(&mut again, &found)?;
    assert_eq!(rt; again.as_slice(), &bytes[1..]);
    Ok(())
}

#[test]
fn keys_of_names_are_read_again(rt: HostRuntime) -> Result<(), Fail> {
    let alloc = rt.alloc();
    let name = Name::read(alloc, "all")?;
    is_read_again(&rt, alloc, &Key::Target(name.copy(alloc)?))?;
    is_read_again(&rt, alloc, &Key::Command(name.copy(alloc)?))?;
    is_read_again(&rt, alloc, &Key::Node(NodeName::Virtual(name)))?;
    Ok(())
}

#[test]
fn keys_of_paths_are_read_again(rt: HostRuntime) -> Result<(), Fail> {
    let alloc = rt.alloc();
    let path = PathName::read(alloc, "src/lib")?;
    is_read_again(&rt, alloc, &Key::Node(NodeName::Path(path.copy(alloc)?)))?;
    is_read_again(&rt, alloc, &Key::Contents(path.copy(alloc)?))?;
    is_read_again(&rt, alloc, &Key::Tree(path, List::new(alloc)))?;
    Ok(())
}

#[test]
fn keys_of_patterns_are_read_again(rt: HostRuntime) -> Result<(), Fail> {
    let alloc = rt.alloc();
    let spelled = b"\x06\0\0\0\x01d\0\0\0\x02\0\0\0\x05*.tmp\0\0\0\0";
    let Some((key, long)) = read_key(alloc, spelled)? else {
        assert!(rt; false, "nothing was read");
        return Ok(());
    };
    assert_eq!(rt; long, 23);
    spelled_key_has_patterns();
    is_read_again(&rt, alloc, &key)?;
    assert!(rt; key.copy(alloc)?.same(&key));
    Ok(())
}

// The command `all` is written after a byte.
#[test]
fn a_key_is_written_at_the_end(rt: HostRuntime) -> Result<(), Fail> {
    let alloc = rt.alloc();
    let mut out = Bytes::new(alloc);
    out.push(0xFF)?;
    write_key(alloc, &Key::Command(Name::read(alloc, "all")?), &mut out)?;
    assert_eq!(rt; out.as_slice(), b"\xFF\x02\0\0\0\x03all".as_slice());
    Ok(())
}

// Sees that what is read of the bytes, if anything, has these very bytes as its spelling.
fn is_the_only_spelling(rt: &impl Abort, alloc: Global, bytes: &[u8]) -> Result<(), Fail> {
    let Some((key, long)) = read_key(alloc, bytes)? else {
        return Ok(());
    };
    let mut again = Vec::new(alloc);
    push_key(&mut again, &key)?;
    assert_eq!(rt; again.len(), long, "of {bytes:?}");
    assert!(rt; bytes.starts_with(again.as_slice()), "of {bytes:?}");
    Ok(())
}

#[test]
fn changed_bytes_are_another_key_or_none(rt: HostRuntime) -> Result<(), Fail> {
    let alloc = rt.alloc();
    for spelled in [
        b"\x02\0\0\0\x03all".as_slice(),
        b"\x03\0\0\0\0\x03s/l".as_slice(),
        b"\x06\0\0\0\x01d\0\0\0\x02\0\0\0\x01*\0\0\0\0".as_slice(),
    ] {
        for place in 0..spelled.len() {
            for byte in 0..=255 {
                let mut bytes = Vec::from_slice(alloc, spelled)?;
                bytes[place] = byte;
                is_the_only_spelling(&rt, alloc, bytes.as_slice())?;
            }
        }
    }
    Ok(())
}

#[test]
fn every_front_of_a_spelling_has_no_key(rt: HostRuntime) -> Result<(), Fail> {
    let spelled = b"\x05\0\0\0\x01d\0\0\0\x02\0\0\0\x05*.tmp\0\0\0\0".as_slice();
    for long in 0..spelled.len() {
        is_read_as(&rt, rt.alloc(), &spelled[..long], None)?;
    }
    is_read_as(&rt, rt.alloc(), spelled, Some(23))?;
    Ok(())
}

// Reads two keys, and sees that they are in this order.
fn is_in_order(
    rt: &impl Abort,
    alloc: Global,
    bytes: &[u8],
    others: &[u8],
    order: Ordering,
) -> Result<(), Fail> {
    let Some((key, _)) = read_key(alloc, bytes)? else {
        assert!(rt; false, "nothing was read of {bytes:?}");
        return Ok(());
    };
    let Some((other, _)) = read_key(alloc, others)? else {
        assert!(rt; false, "nothing was read of {others:?}");
        return Ok(());
    };
    spelled_key_has_patterns();
    assert!(rt;
        key_order(&key, &other) == order,
        "at {bytes:?} and {others:?}"
    );
    assert!(rt;
        key.same(&other) == order.is_eq(),
        "at {bytes:?} and {others:?}"
    );
    Ok(())
}

#[test]
fn keys_are_in_the_order_of_their_bytes(rt: HostRuntime) -> Result<(), Fail> {
    let rising = [
        b"\x01\0\0\0\x01b".as_slice(),
        b"\x01\0\0\0\x02aa".as_slice(),
        b"\x01\0\0\0\x02ab".as_slice(),
        b"\x02\0\0\0\x01a".as_slice(),
        b"\x03\0\0\0\0\x01b".as_slice(),
        b"\x03\x01\0\0\0\x01a".as_slice(),
        b"\x04\0\0\0\x01a".as_slice(),
        b"\x05\0\0\0\x01a\0\0\0\0".as_slice(),
        b"\x05\0\0\0\x01a\0\0\0\x01\0\0\0\x02aa".as_slice(),
        b"\x05\0\0\0\x01a\0\0\0\x02\0\0\0\x01a\0\0\0\x01b".as_slice(),
        b"\x05\0\0\0\x01a\0\0\0\x02\0\0\0\x01a\0\0\0\x01c".as_slice(),
        b"\x05\0\0\0\x01b\0\0\0\0".as_slice(),
        b"\x06\0\0\0\x01a\0\0\0\0".as_slice(),
    ];
    for (place, bytes) in rising.iter().enumerate() {
        for (other_place, others) in rising.iter().enumerate() {
            is_in_order(&rt, rt.alloc(), bytes, others, place.cmp(&other_place))?;
        }
    }
    Ok(())
}

//! Values and their spellings.
use crate::length::{VALUE_MAX, value_len};
use crate::read::read_value;
use crate::value::Value;
use crate::write::{push_value, write_value};
use file_info::copied::Copied;
use file_info::info::Info;
use file_info::list::{Bytes, List};
use file_info::same::Same;
use std::alloc::Global;
use std::process::Abort;
use std::test::Fail;

// Reads a value from the front of the bytes, and sees that it has this length, or that there is none. What is read is
// written again as it was.
fn is_read_as(
    rt: &impl Abort,
    alloc: Global,
    bytes: &[u8],
    long: Option<usize>,
) -> Result<(), Fail> {
    let Some((value, found)) = read_value(alloc, bytes)? else {
        assert_eq!(rt; long, None, "of {bytes:?}");
        return Ok(());
    };
    assert_eq!(rt; Some(found), long, "of {bytes:?}");
    let mut again = Vec::new(alloc);
    push_value(&mut again, &value)?;
    assert_eq!(rt;
        again.as_slice(),
        &bytes[..found.min(bytes.len())],
        "of {bytes:?}"
    );
    assert_eq!(rt; value_len(&value), found as u64, "of {bytes:?}");
    assert!(rt; value.copy(alloc)?.same(&value), "of {bytes:?}");
    Ok(())
}

#[test]
fn bytes_begin_with_a_value_or_with_none(rt: HostRuntime) -> Result<(), Fail> {
    for (bytes, long) in [
        // A missing file, and one byte more.
        (b"\x02\0".as_slice(), Some(2)),
        (b"\x02\0\xFF".as_slice(), Some(2)),
        (b"\x0A".as_slice(), None),
        (b"".as_slice(), None),
        (b"\0".as_slice(), None),
        (b"\x01".as_slice(), Some(1)),
        (b"\x08\x08".as_slice(), Some(1)),
        (b"\x09".as_slice(), Some(1)),
        // File information.
        (b"\x02\x01".as_slice(), Some(2)),
        (b"\x02\x03\0\0\0\x03d/x".as_slice(), Some(9)),
        (b"\x02\x03\0\0\0\x01\xFF".as_slice(), Some(7)),
        (b"\x02\x04".as_slice(), None),
        (b"\x02\x02\0\0\0\0\0\0\0\x09".as_slice(), None),
    ] {
        is_read_as(&rt, rt.alloc(), bytes, long)?;
    }
    Ok(())
}

#[test]
fn bytes_begin_with_a_list_or_with_none(rt: HostRuntime) -> Result<(), Fail> {
    for (bytes, long) in [
        // Names, which stand in order.
        (b"\x03\0\0\0\0".as_slice(), Some(5)),
        (b"\x03\0\0\0\x02\0\0\0\x01a\0\0\0\x01b".as_slice(), Some(15)),
        (b"\x03\0\0\0\x02\0\0\0\x01b\0\0\0\x01a".as_slice(), None),
        (b"\x03\0\0\0\x02\0\0\0\x01a\0\0\0\x01a".as_slice(), None),
        (b"\x03\0\0\0\x01\0\0\0\x02..".as_slice(), None),
        (b"\x03\0\0\0\x01\0\0\0\x01\xFF".as_slice(), None),
        // Entries.
        (b"\x04\0\0\0\x01\0\0\0\x03d/x\0".as_slice(), Some(13)),
        (b"\x04\0\0\0\x01\0\0\0\x03d//\0".as_slice(), None),
        (b"\x05\0\0\0\x01\0\0\0\x03d/x\x02".as_slice(), Some(13)),
        (b"\x05\0\0\0\x01\0\0\0\x03d/x\0".as_slice(), None),
        // File information and paths.
        (b"\x06\0\0\0\x02\0\x01".as_slice(), Some(7)),
        (b"\x07\0\0\0\x01\0\0\0\x01p".as_slice(), Some(10)),
        (b"\x07\xFF\xFF\xFF\xFF\0\0\0\x01p".as_slice(), None),
    ] {
        is_read_as(&rt, rt.alloc(), bytes, long)?;
    }
    Ok(())
}

#[test]
fn a_stamp_is_read_in_its_order(rt: HostRuntime) -> Result<(), Fail> {
    let alloc = rt.alloc();
    let mut bytes = Vec::new(alloc);
    let value = Value::File(Info::File {
        size: 258,
        stamp: [1, 2, 3, 4],
    });
    push_value(&mut bytes, &value)?;
    let spelled =
        b"\x02\x02\0\0\0\0\0\0\x01\x02\0\0\0\0\0\0\0\x01\0\0\0\0\0\0\0\x02\0\0\0\0\0\0\0\x03\0\0\0\0\0\0\0\x04".as_slice();
    assert_eq!(rt; bytes.as_slice(), spelled);
    is_read_as(&rt, alloc, spelled, Some(42))?;
    Ok(())
}

#[test]
fn a_value_is_written_at_the_end(rt: HostRuntime) -> Result<(), Fail> {
    let alloc = rt.alloc();
    let mut out = Bytes::new(alloc);
    out.push(0xFF)?;
    write_value(alloc, &Value::Failed, &mut out)?;
    assert_eq!(rt; out.as_slice(), b"\xFF\x09".as_slice());
    Ok(())
}

// The value of a link to so many bytes, and its spelling.
fn link_of(alloc: Global, count: usize) -> Result<(Value, Vec<u8>), Fail> {
    let mut text = Vec::new(alloc);
    text.resize(count, b'x')?;
    let value = Value::File(Info::Link {
        text: List::from_vec(text),
    });
    let mut bytes = Vec::new(alloc);
    push_value(&mut bytes, &value)?;
    Ok((value, bytes))
}

#[test]
fn a_value_has_at_most_16777216_bytes(rt: HostRuntime) -> Result<(), Fail> {
    let alloc = rt.alloc();
    let (value, bytes) = link_of(alloc, 16_777_210)?;
    assert_eq!(rt; value_len(&value), VALUE_MAX);
    assert_eq!(rt; read_value(alloc, &bytes)?.map(|x| x.1), Some(16_777_216));
    let (value, bytes) = link_of(alloc, 16_777_211)?;
    assert_eq!(rt; value_len(&value), VALUE_MAX + 1);
    assert!(rt; read_value(alloc, &bytes)?.is_none());
    let (value, _) = link_of(alloc, 16_777_300)?;
    assert_eq!(rt; value_len(&value), VALUE_MAX + 1);
    Ok(())
}

#[test]
fn changed_bytes_are_another_value_or_none(rt: HostRuntime) -> Result<(), Fail> {
    let alloc = rt.alloc();
    for spelled in [
        b"\x03\0\0\0\x02\0\0\0\x01a\0\0\0\x01b".as_slice(),
        b"\x04\0\0\0\x01\0\0\0\x03d/x\x03\0\0\0\x01l".as_slice(),
        b"\x06\0\0\0\x02\0\x01".as_slice(),
    ] {
        for place in 0..spelled.len() {
            for byte in 0..=255 {
                let mut bytes = Vec::from_slice(alloc, spelled)?;
                bytes[place] = byte;
                let long = read_value(alloc, bytes.as_slice())?.map(|x| x.1);
                is_read_as(&rt, alloc, bytes.as_slice(), long)?;
            }
        }
    }
    Ok(())
}

// Values of each kind, and some that differ in one part.
const VALUES: [&[u8]; 16] = [
    b"\x01",
    b"\x02\0",
    b"\x02\x01",
    b"\x02\x03\0\0\0\x01a",
    b"\x03\0\0\0\0",
    b"\x03\0\0\0\x01\0\0\0\x01a",
    b"\x04\0\0\0\0",
    b"\x04\0\0\0\x01\0\0\0\x01a\0",
    b"\x04\0\0\0\x01\0\0\0\x01a\x01",
    b"\x04\0\0\0\x01\0\0\0\x01b\0",
    b"\x05\0\0\0\x01\0\0\0\x01a\x01",
    b"\x05\0\0\0\x01\0\0\0\x01a\x02",
    b"\x06\0\0\0\x02\0\x01",
    b"\x07\0\0\0\x01\0\0\0\x01a",
    b"\x08",
    b"\x09",
];

#[test]
fn values_are_equal_where_their_spellings_are(rt: HostRuntime) -> Result<(), Fail> {
    let alloc = rt.alloc();
    for bytes in VALUES {
        for others in VALUES {
            let Some((value, _)) = read_value(alloc, bytes)? else {
                assert!(rt; false, "nothing was read of {bytes:?}");
                return Ok(());
            };
            let Some((other, _)) = read_value(alloc, others)? else {
                assert!(rt; false, "nothing was read of {others:?}");
                return Ok(());
            };
            assert!(rt;
                value.same(&other) == (bytes == others),
                "at {bytes:?} and {others:?}"
            );
        }
    }
    Ok(())
}

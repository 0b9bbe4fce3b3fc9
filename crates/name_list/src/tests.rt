//! The names in a directory.
use crate::entry::names_entry;
use crate::fault::ListError;
use crate::names::NameList;
use file_info::copied::Copied;
use file_info::list::{Bytes, List};
use file_info::same::Same;
use std::alloc::Global;
use std::process::Abort;
use std::test::Fail;

// The list of the texts between the commas.
fn texts_of(alloc: Global, text: &str) -> Result<List<Bytes>, Fail> {
    let mut texts = List::new(alloc);
    for part in text.split(',') {
        texts.push(List::from_vec(Vec::from_slice(alloc, part.as_bytes())?))?;
    }
    Ok(texts)
}

// Whether the texts are names in order.
fn is_in_order(rt: &impl Abort, alloc: Global, text: &str, are_names: bool) -> Result<(), Fail> {
    let names = texts_of(alloc, text)?;
    let copy = names.copy(alloc)?;
    let Some(list) = NameList::in_order(names) else {
        assert!(rt; !are_names, "at {text:?}");
        return Ok(());
    };
    assert!(rt; are_names, "at {text:?}");
    assert!(rt; list.names().same(&copy), "at {text:?}");
    assert!(rt; list.copy(alloc)?.same(&list), "at {text:?}");
    Ok(())
}

#[test]
fn names_stand_in_byte_order(rt: HostRuntime) -> Result<(), Fail> {
    for (text, are_names) in [
        ("a", true),
        ("a,b", true),
        ("B,a,ab,b", true),
        (".a,...,a b,größe", false),
        ("...,.a,a b,größe", true),
        ("b,a", false),
        ("a,a", false),
        ("a,b,b", false),
        ("", false),
        (".", false),
        ("..", false),
        ("a,b/c", false),
        ("a\0", false),
    ] {
        is_in_order(&rt, rt.alloc(), text, are_names)?;
    }
    assert!(rt; NameList::in_order(List::new(rt.alloc())).is_some());
    Ok(())
}

#[test]
fn a_name_is_text_of_1_to_4096_bytes(rt: HostRuntime) -> Result<(), Fail> {
    let alloc = rt.alloc();
    assert!(rt; !names_entry(b"\xFF"));
    assert!(rt; names_entry("n".repeat(alloc, 4096)?.as_bytes()));
    assert!(rt; !names_entry("n".repeat(alloc, 4097)?.as_bytes()));
    Ok(())
}

// Reads the texts, and sees that they are these names in order, or that they have this fault.
fn is_read_as(
    rt: &impl Abort,
    alloc: Global,
    text: &str,
    wanted: Result<&str, ListError>,
) -> Result<(), Fail> {
    let texts = texts_of(alloc, text)?;
    assert!(rt; texts.len() < 1000);
    match (NameList::read(alloc, texts), wanted) {
        (Ok(list), Ok(sorted)) => {
            assert!(rt; list.names().same(&texts_of(alloc, sorted)?), "at {text:?}");
        }
        (Err(fault), Err(error)) => assert_eq!(rt; fault, error, "at {text:?}"),
        (Ok(_), Err(_)) | (Err(_), Ok(_)) => assert!(rt; false, "at {text:?}"),
    }
    Ok(())
}

#[test]
fn texts_are_put_in_order_or_have_a_first_fault(rt: HostRuntime) -> Result<(), Fail> {
    let bad = |place: u32| Err(ListError::Bad { place });
    let repeated = |place: u32| Err(ListError::Repeated { place });
    for (text, wanted) in [
        ("b,a", Ok("a,b")),
        ("a,b,B,ab,größe,...", Ok("...,B,a,ab,b,größe")),
        ("a,a", repeated(1)),
        ("b,a,c,a,b", repeated(3)),
        ("b,a,b,a", repeated(2)),
        ("", bad(0)),
        ("a,.,a", bad(1)),
        ("a,a,.", repeated(1)),
        ("a,b,..,..", bad(2)),
        ("a,x/y", bad(1)),
        ("a,x\0", bad(1)),
    ] {
        is_read_as(&rt, rt.alloc(), text, wanted)?;
    }
    Ok(())
}

#[test]
fn no_texts_are_the_names_of_an_empty_directory(rt: HostRuntime) -> Result<(), Fail> {
    let alloc = rt.alloc();
    let list = NameList::read(alloc, List::new(alloc));
    assert!(rt; list.is_ok_and(|names| names.names().is_empty()));
    Ok(())
}

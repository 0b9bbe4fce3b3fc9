use crate::{push_count, push_flag, push_node, push_text};
use file_info::name::Name;
use file_info::node::NodeName;
use file_info::path::PathName;
use std::test::Fail;

#[test]
fn spellings_stand_one_after_another(rt: HostRuntime) -> Result<(), Fail> {
    let alloc = rt.alloc();
    let path = NodeName::Path(PathName::read(alloc, "a/b")?);
    let name = NodeName::Virtual(Name::read(alloc, "all")?);
    let mut out = Vec::new(alloc);
    push_count(&mut out, 258)?;
    push_flag(&mut out, true)?;
    push_text(&mut out, b"hi")?;
    push_node(&mut out, &path)?;
    push_node(&mut out, &name)?;
    let expected = b"\0\0\x01\x02\x01\0\0\0\x02hi\0\0\0\0\x03a/b\x01\0\0\0\x03all".as_slice();
    assert_eq!(rt; out.as_slice(), expected);
    Ok(())
}

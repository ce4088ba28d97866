use crate::{List, Text};
use std::test::Fail;

#[test]
fn copies_bytes_and_appends_items(rt: HostRuntime) -> Result<(), Fail> {
    let text = Text::from_slice(rt.alloc(), b"J1\x00\xff")?;
    assert_eq!(rt; text.as_slice(), b"J1\x00\xff".as_slice());
    let mut list: List<i64> = List::new(rt.alloc());
    list.push(4)?;
    list.push(-7)?;
    if let Some(first) = list.as_mut_slice().first_mut() {
        *first = 9;
    }
    assert_eq!(rt; list.as_slice(), [9, -7].as_slice());
    Ok(())
}

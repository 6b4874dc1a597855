//! Each call that allocates, with ample memory.

use crate::{PlainBytes, PlainText, utf16_len};
use std::test::Fail;

#[test]
fn texts_and_bytes_are_kept(rt: HostRuntime) -> Result<(), Fail> {
    let alloc = rt.alloc();
    let text = PlainText::new(alloc, "añ")?;
    assert_eq!(rt; text.copy()?.as_str(), "añ");
    let from = PlainText::from_string(String::from_str(alloc, "b")?);
    assert_eq!(rt; from.as_str(), "b");
    let bytes = PlainBytes::new(alloc, &[1, 255])?;
    assert_eq!(rt; bytes.copy()?.as_slice(), [1, 255].as_slice());
    let from = PlainBytes::from_vec(vec![in alloc; 0, 7]?);
    assert_eq!(rt; from.into_vec().as_slice(), [0, 7].as_slice());
    Ok(())
}

#[test]
fn units_are_counted(rt: HostRuntime) {
    assert_eq!(rt; utf16_len("".as_bytes()), 0);
    assert_eq!(rt; utf16_len("añ€\n".as_bytes()), 4);
    assert_eq!(rt; utf16_len("a😀b".as_bytes()), 4);
}

// Bytes that no text gives, and offsets near the greatest.
use jsonb::parse_string;
use key_document::{DocumentError, append_document_of_text, append_next_range, zeros_from};
use std::alloc::{AllocError, Global};
use std::test::Fail;

// The length is no bound, and the offset reaches the greatest.
#[test]
fn the_offset_reaches_the_greatest(rt: HostRuntime) -> Result<(), Fail> {
    let mut idx = usize::MAX - 18;
    let text = parse_string(rt.alloc(), b"\\u0041\\u0042\\u0043", usize::MAX, &mut idx)?;
    assert_eq!(rt; text.as_str(), "ABC");
    assert_eq!(rt; idx, usize::MAX);
    Ok(())
}

// Whether the text has no document, and what was in the buffer is still there.
fn has_no_document(alloc: Global, text: &str) -> Result<bool, AllocError> {
    let mut out = Vec::from_slice(alloc, b"x")?;
    let made = append_document_of_text(&mut out, text.as_bytes());
    Ok(made == Err(DocumentError::NoDocument) && out.as_slice() == b"x".as_slice())
}

// A string without an end, a word that is cut short, and a number of 40 digits.
#[test]
fn what_is_no_text_has_no_document(rt: HostRuntime) {
    for text in ["[\"", "nul", "1234567890123456789012345678901234567890"] {
        assert!(rt; has_no_document(rt.alloc(), text) == Ok(true), "{text}");
    }
}

// The document of [1.50,[2.0,3],4.00].
const DOCUMENT: &[u8] =
    b"\xd2\xa1\x1e\xd2\xa1\x28\xa1\x3c\x00\xa1\x50\x00\x01\x01\x02\x01\x04\x02\x06\xff";

// Whether the first part isn't left behind it, and nothing is appended.
fn is_passed(alloc: Global) -> Result<bool, DocumentError> {
    let left = zeros_from(DOCUMENT, 3)?;
    let mut out = Vec::from_slice(alloc, b"x")?;
    let again = append_next_range(&mut out, DOCUMENT, left, 1, 2);
    Ok(matches!(again, Err(DocumentError::NoDocument)) && out.as_slice() == b"x".as_slice())
}

#[test]
fn a_part_is_not_left_behind_it(rt: HostRuntime) {
    assert!(rt; is_passed(rt.alloc()) == Ok(true));
}

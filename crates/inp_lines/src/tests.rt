use crate::{Line, SectionName, section_of, split_lines};
use std::test::Fail;

// A token of a line, or nothing where it has fewer.
fn token(line: &Line, place: usize) -> Option<&[u8]> {
    match line.tokens.as_slice().get(place) {
        Some(token) => Some(token.as_slice()),
        None => None,
    }
}

#[test]
fn reads_the_tokens_before_the_comment(rt: HostRuntime) -> Result<(), Fail> {
    let lines = split_lines(rt.alloc(), b"[junc]\r\n\tJ1 0 ; note")?;
    assert_eq!(rt; lines.as_slice().len(), 1);
    for line in lines.as_slice() {
        assert_eq!(rt; line.number, 2);
        assert_eq!(rt; line.section, SectionName::Junctions);
        assert_eq!(rt; line.tokens.as_slice().len(), 2);
        assert_eq!(rt; token(line, 0), Some(b"J1".as_slice()));
        assert_eq!(rt; token(line, 1), Some(b"0".as_slice()));
    }
    Ok(())
}

#[test]
fn ends_a_token_at_its_closing_quote(rt: HostRuntime) -> Result<(), Fail> {
    let lines = split_lines(rt.alloc(), b"\"a\"b\n\"a\"\"b\"\n")?;
    assert_eq!(rt; lines.as_slice().len(), 2);
    for line in lines.as_slice() {
        assert_eq!(rt; line.tokens.as_slice().len(), 2);
        assert_eq!(rt; token(line, 0), Some(b"a".as_slice()));
        assert_eq!(rt; token(line, 1), Some(b"b".as_slice()));
    }
    Ok(())
}

#[test]
fn keeps_a_quote_inside_a_token(rt: HostRuntime) -> Result<(), Fail> {
    let lines = split_lines(rt.alloc(), b"a\"b")?;
    for line in lines.as_slice() {
        assert_eq!(rt; line.tokens.as_slice().len(), 1);
        assert_eq!(rt; token(line, 0), Some(b"a\"b".as_slice()));
    }
    Ok(())
}

#[test]
fn knows_a_section_by_its_key(rt: HostRuntime) -> Result<(), Fail> {
    assert_eq!(rt; section_of(b"[JUNC"), Some(SectionName::Junctions));
    assert_eq!(rt; section_of(b"[JUNCTIONS"), Some(SectionName::Junctions));
    assert_eq!(rt; section_of(b"[MAP"), Some(SectionName::Map));
    assert_eq!(rt; section_of(b"[MAP;x"), Some(SectionName::Map));
    assert_eq!(rt; section_of(b"[ JUNC]"), Some(SectionName::Unknown));
    assert_eq!(rt; section_of(b"[MAP ]"), Some(SectionName::Unknown));
    assert_eq!(rt; section_of(b"[DWF x"), Some(SectionName::Unknown));
    assert_eq!(rt; section_of(b"JUNC]"), None);
    Ok(())
}

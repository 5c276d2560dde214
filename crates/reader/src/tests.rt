// What the reader answers on small texts.
use crate::fault::Error;
use crate::reader::{Reader, part, read};
use crate::token::Tag;
use std::alloc::Global;
use std::test::Fail;

// Nothing and the number of tokens, or the refusal's number and offset.
fn outcome(heap: Global, text: &[u8]) -> (u8, usize) {
    match read(heap, text) {
        Ok(tokens) => (0, tokens.len()),
        Err(Error::Refused(fault)) => (fault.number(), fault.offset),
        Err(Error::OutOfMemory) => (1, 0),
    }
}

#[test]
fn tokens_are_counted(rt: HostRuntime) {
    assert_eq!(rt; outcome(rt.alloc(), b""), (0, 1));
    assert_eq!(rt; outcome(rt.alloc(), b"main { } \n "), (0, 4));
    assert_eq!(rt; outcome(rt.alloc(), b"12a"), (0, 3));
    assert_eq!(rt; outcome(rt.alloc(), b"a12"), (0, 2));
    assert_eq!(rt; outcome(rt.alloc(), b"==="), (0, 3));
    assert_eq!(rt; outcome(rt.alloc(), b"a\tb"), (12, 1));
    assert_eq!(rt; outcome(rt.alloc(), b"abcdefghijklmn16"), (0, 2));
    assert_eq!(rt; outcome(rt.alloc(), b" abcdefghijklmno17"), (12, 1));
    assert_eq!(rt; outcome(rt.alloc(), b"0123456789"), (0, 2));
    assert_eq!(rt; outcome(rt.alloc(), b"+01234567890"), (12, 1));
}

#[test]
fn first_bytes(rt: HostRuntime) {
    let signs = b"(){},;&=+-*<";
    for b in 0..=255 {
        let wanted = match b as char {
            ' ' | '\n' => (0, 1),
            'a'..='z' | 'A'..='Z' | '0'..='9' => (0, 2),
            _ if signs.contains(&b) => (0, 2),
            _ => (12, 0),
        };
        assert_eq!(rt; outcome(rt.alloc(), &[b]), wanted);
    }
}

#[test]
fn lengths(rt: HostRuntime) -> Result<(), Fail> {
    let blank = vec![in rt.alloc(); b' '; 16385]?;
    assert_eq!(rt; outcome(rt.alloc(), part(&blank, 0, 16384)), (0, 1));
    assert_eq!(rt; outcome(rt.alloc(), &blank), (11, 16384));
    Ok(())
}

#[test]
fn one_by_one(rt: HostRuntime) -> Result<(), Fail> {
    let mut reader = Reader::new(b" while x1== 7");
    let word = reader.next()?;
    assert_eq!(rt; (word.tag, word.at, word.len), (Tag::While, 1, 5));
    let name = reader.next()?;
    assert_eq!(rt; (name.tag, name.at, name.len), (Tag::Name, 7, 2));
    assert_eq!(rt; reader.part(&name), b"x1".as_slice());
    let sign = reader.next()?;
    assert_eq!(rt; (sign.tag, sign.at, sign.len), (Tag::Equals, 9, 2));
    assert_eq!(rt; reader.next()?.tag, Tag::Number);
    let end = reader.next()?;
    assert_eq!(rt; (end.tag, end.at, end.len), (Tag::End, 13, 0));
    assert!(rt; reader.next()?.tag == Tag::End && sign.tag != Tag::Assign);
    Ok(())
}

use crate::programs::parse;
use reader::fault::{Cause, Error};
use reader::token::{Tag, Token};
use std::alloc::Global;
use std::test::Fail;

// Tokens of these tags, so many times; the offset of each is its index.
fn add(tokens: &mut Vec<Token>, tags: &[Tag], count: usize) -> Result<(), Error> {
    for _ in 0..count {
        for tag in tags {
            let at = tokens.len();
            tokens.push(Token {
                tag: *tag,
                at,
                len: 1,
            })?;
        }
    }
    Ok(())
}

fn accepted(heap: Global, tokens: &[Token]) -> bool {
    parse(heap, tokens).is_ok()
}

fn refused(heap: Global, tokens: &[Token], cause: Cause, offset: usize) -> bool {
    match parse(heap, tokens) {
        Err(Error::Refused(fault)) => fault == cause.at(offset),
        _ => false,
    }
}

#[test]
fn accepts_a_board(rt: HostRuntime) -> Result<(), Fail> {
    let mut text = Vec::new(rt.alloc());
    add(
        &mut text,
        &[
            Tag::Main,
            Tag::OpenBrace,
            Tag::Var,
            Tag::Name,
            Tag::Semicolon,
            Tag::Par,
        ],
        1,
    )?;
    add(
        &mut text,
        &[
            Tag::OpenBrace,
            Tag::Name,
            Tag::Assign,
            Tag::Number,
            Tag::Semicolon,
            Tag::Next,
            Tag::Name,
            Tag::Semicolon,
            Tag::CloseBrace,
        ],
        1,
    )?;
    add(
        &mut text,
        &[
            Tag::OpenBrace,
            Tag::Next,
            Tag::Name,
            Tag::Semicolon,
            Tag::CloseBrace,
            Tag::Semicolon,
            Tag::CloseBrace,
            Tag::End,
        ],
        1,
    )?;
    assert!(rt; accepted(rt.alloc(), text.as_slice()));
    Ok(())
}

#[test]
fn refuses_the_first_and_the_last_token(rt: HostRuntime) -> Result<(), Fail> {
    let mut text = Vec::new(rt.alloc());
    add(&mut text, &[Tag::Main, Tag::OpenBrace, Tag::End], 1)?;
    assert!(rt; refused(rt.alloc(), text.as_slice(), Cause::NotAllowed, 2));
    let mut other = Vec::new(rt.alloc());
    add(&mut other, &[Tag::OpenBrace, Tag::CloseBrace, Tag::End], 1)?;
    assert!(rt; refused(rt.alloc(), other.as_slice(), Cause::NotAllowed, 0));
    Ok(())
}

#[test]
fn opens_sixteen_brackets(rt: HostRuntime) -> Result<(), Fail> {
    let mut text = Vec::new(rt.alloc());
    add(&mut text, &[Tag::Main], 1)?;
    add(&mut text, &[Tag::OpenBrace], 16)?;
    add(&mut text, &[Tag::CloseBrace], 16)?;
    add(&mut text, &[Tag::End], 1)?;
    assert!(rt; accepted(rt.alloc(), text.as_slice()));
    let mut other = Vec::new(rt.alloc());
    add(&mut other, &[Tag::Main], 1)?;
    add(&mut other, &[Tag::OpenBrace], 16)?;
    add(
        &mut other,
        &[Tag::Name, Tag::Assign, Tag::OpenParen, Tag::Number],
        1,
    )?;
    assert!(rt; refused(rt.alloc(), other.as_slice(), Cause::TooDeep, 19));
    Ok(())
}

#[test]
fn takes_eight_parameters(rt: HostRuntime) -> Result<(), Fail> {
    let mut text = Vec::new(rt.alloc());
    add(
        &mut text,
        &[Tag::Proc, Tag::Name, Tag::OpenParen, Tag::Name],
        1,
    )?;
    add(&mut text, &[Tag::Comma, Tag::Ampersand, Tag::Name], 7)?;
    add(
        &mut text,
        &[
            Tag::CloseParen,
            Tag::OpenBrace,
            Tag::CloseBrace,
            Tag::Main,
            Tag::OpenBrace,
            Tag::CloseBrace,
            Tag::End,
        ],
        1,
    )?;
    assert!(rt; accepted(rt.alloc(), text.as_slice()));
    let mut other = Vec::new(rt.alloc());
    add(
        &mut other,
        &[Tag::Proc, Tag::Name, Tag::OpenParen, Tag::Name],
        1,
    )?;
    add(&mut other, &[Tag::Comma, Tag::Name], 8)?;
    assert!(rt; refused(rt.alloc(), other.as_slice(), Cause::NotAllowed, 18));
    Ok(())
}

#[test]
fn takes_two_to_eight_branches(rt: HostRuntime) -> Result<(), Fail> {
    let mut text = Vec::new(rt.alloc());
    add(&mut text, &[Tag::Main, Tag::OpenBrace, Tag::Par], 1)?;
    add(&mut text, &[Tag::OpenBrace, Tag::CloseBrace], 8)?;
    add(&mut text, &[Tag::Semicolon, Tag::CloseBrace, Tag::End], 1)?;
    assert!(rt; accepted(rt.alloc(), text.as_slice()));
    let mut other = Vec::new(rt.alloc());
    add(&mut other, &[Tag::Main, Tag::OpenBrace, Tag::Par], 1)?;
    add(&mut other, &[Tag::OpenBrace, Tag::CloseBrace], 9)?;
    assert!(rt; refused(rt.alloc(), other.as_slice(), Cause::NotAllowed, 19));
    let mut single = Vec::new(rt.alloc());
    add(
        &mut single,
        &[
            Tag::Main,
            Tag::OpenBrace,
            Tag::Par,
            Tag::OpenBrace,
            Tag::CloseBrace,
            Tag::Semicolon,
        ],
        1,
    )?;
    assert!(rt; refused(rt.alloc(), single.as_slice(), Cause::NotAllowed, 5));
    Ok(())
}

#[test]
fn takes_a_thousand_operators(rt: HostRuntime) -> Result<(), Fail> {
    let mut text = Vec::new(rt.alloc());
    add(
        &mut text,
        &[Tag::Main, Tag::OpenBrace, Tag::Name, Tag::Assign, Tag::Name],
        1,
    )?;
    add(&mut text, &[Tag::Plus, Tag::Minus, Tag::Number], 1000)?;
    add(&mut text, &[Tag::Semicolon, Tag::CloseBrace, Tag::End], 1)?;
    assert!(rt; accepted(rt.alloc(), text.as_slice()));
    Ok(())
}

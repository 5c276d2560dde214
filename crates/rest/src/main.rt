// Reads a text from standard input and prints what the first stages make of it: the refusal, or each
// token, then the text's literals as the words of a tape, summed in both number kinds beside a counter.
#![tactic(auto)]

use banks::bank::Bank;
use banks::counter::Counter;
use banks::tape::Tape;
use numbers::binary::Binary;
use numbers::decimal::Decimal;
use numbers::kind::NumberKind;
use numbers::literal::read_literal;
use reader::fault::Error;
use reader::reader::{part, read};
use reader::token::{Tag, Token};
use std::io::Read;
use std::str::from_utf8;

fn main(rt: HostRuntime) -> anyhow::Result<()> {
    run(&rt)
}

fn run(rt: &HostRuntime) -> anyhow::Result<()> {
    let mut text = Vec::new(rt.alloc());
    rt.stdin().read_to_end(&mut text)?;
    match read(rt.alloc(), text.as_slice()) {
        Ok(tokens) => {
            show_tokens(rt, text.as_slice(), tokens.as_slice())?;
            show_sums(rt, &Binary, "binary", text.as_slice(), tokens.as_slice())?;
            show_sums(rt, &Decimal, "decimal", text.as_slice(), tokens.as_slice())
        }
        Err(Error::Refused(fault)) => {
            println!(rt; "{fault}")?;
            Ok(())
        }
        Err(error) => Err(error.into()),
    }
}

// Whether a fixed token is a sign or a reserved word.
fn fixed_kind(tag: Tag) -> &'static str {
    match tag {
        Tag::OpenParen | Tag::CloseParen | Tag::OpenBrace | Tag::CloseBrace => "sign",
        Tag::Comma | Tag::Semicolon | Tag::Ampersand | Tag::Assign => "sign",
        Tag::Plus | Tag::Minus | Tag::Star | Tag::Less | Tag::Equals => "sign",
        _ => "word",
    }
}

// One line for each token: its offset, its kind and how it is written.
fn show_tokens(rt: &HostRuntime, text: &[u8], tokens: &[Token]) -> anyhow::Result<()> {
    for token in tokens {
        let at = token.at;
        let written = from_utf8(part(text, token.at, token.len))?;
        match token.tag {
            Tag::Name => println!(rt; "at={at} name {written}")?,
            Tag::Number => {
                print!(rt; "at={at} number {written}")?;
                show_reading(rt, &Binary, "binary", written.as_bytes())?;
                show_reading(rt, &Decimal, "decimal", written.as_bytes())?;
                println!(rt; "")?
            }
            Tag::End => println!(rt; "at={at} end")?,
            tag => {
                let kind = fixed_kind(tag);
                println!(rt; "at={at} {kind} {written}")?
            }
        }
    }
    Ok(())
}

// What a literal reads as in a kind, or `-` where it has no reading.
fn show_reading<K: NumberKind>(
    rt: &HostRuntime,
    kind: &K,
    name: &str,
    digits: &[u8],
) -> anyhow::Result<()> {
    match read_literal(kind, digits) {
        Some(word) => {
            let digits = kind.written(word);
            let value = from_utf8(digits.as_bytes())?;
            print!(rt; " {name}={value}")?
        }
        None => print!(rt; " {name}=-")?,
    }
    Ok(())
}

// The sum of the words to come at one port of a bank, at most so many; a word that is no number of the kind is left out.
fn total<K: NumberKind, B: Bank>(kind: &K, bank: &mut B, port: u32, most: usize) -> u32 {
    let mut sum = 0;
    for _ in 0..most {
        let Some(word) = bank.take(port) else {
            return sum;
        };
        if kind.is_number(word) {
            sum = kind.sum(sum, word);
        }
    }
    sum
}

// The literals that have a reading become a tape at port 0, and a counter gives as many words at port 1.
fn show_sums<K: NumberKind>(
    rt: &HostRuntime,
    kind: &K,
    name: &str,
    text: &[u8],
    tokens: &[Token],
) -> anyhow::Result<()> {
    let mut words = Vec::new(rt.alloc());
    for token in tokens {
        if token.tag == Tag::Number {
            if let Some(word) = read_literal(kind, part(text, token.at, token.len)) {
                words.push(word)?;
            }
        }
    }
    let count = words.len();
    let mut tape = Tape::new(words.as_slice(), [0; 8], [count, 0, 0, 0, 0, 0, 0, 0]);
    let taped = kind.written(total(kind, &mut tape, 0, count));
    let few = u16::try_from(count).unwrap_or(u16::MAX);
    let mut counter = Counter::new([0, 1, 0, 0, 0, 0, 0, 0], [1; 8], [0, few, 0, 0, 0, 0, 0, 0]);
    let counted = kind.written(total(kind, &mut counter, 1, count));
    let taped = from_utf8(taped.as_bytes())?;
    let counted = from_utf8(counted.as_bytes())?;
    println!(rt; "{name} literals={count} tape={taped} counter={counted}")?;
    Ok(())
}

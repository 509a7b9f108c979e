ghost use Rattle.std.specs.Prelude.{◌≡◌, ◌<◌, ◌∷◌, ◌++◌, [], true, codes, IfOk, OnOk};
ghost use Rattle.std.specs.Fmt.{digits, digit_glyph, signed_decimal};
ghost use Rattle.std.specs.Str.{chars, bytes_eq};
ghost use Rattle.std.specs.List.{list_any};
ghost use Rattle.dets_term.specs.TermValue.{nil, chain, map_of};
ghost use Rattle.text_model.specs.Token.{is_name_character, is_plain_atom};
ghost use Rattle.text_model.specs.Printed.{is_reserved, quoted_character, quoted_atom, printed_atom, printed, printed_elements};

use crate::Memory;
use crate::print_bits::print_bits;
use dets_term::{ByteList, Node, PairList, Term, TermList};
use itoa::Buffer;
use std::alloc::Global;

/// The reserved words of Erlang's syntax, which are atoms only in quotes.
const RESERVED_WORDS: [&str; 29] = [
    "after", "and", "andalso", "band", "begin", "bnot", "bor", "bsl", "bsr", "bxor", "case",
    "catch", "cond", "div", "else", "end", "fun", "if", "let", "maybe", "not", "of", "or",
    "orelse", "receive", "rem", "try", "when", "xor",
];

/// The printed form of a term in UTF-8, on one line.
pub fn print(alloc: Global, term: &Term) -> Result<ByteList, Memory>
    ensures { IfOk result (λ bytes. bytes ≡ printed term.now) }
{
    let mut out = ByteList::new(alloc);
    print_term(&mut out, term)?;
    Ok(out)
}

#[cycle(print)]
fn print_term(out: &mut ByteList, term: &Term) -> Result<(), Memory>
    ensures { OnOk result (out.new ≡ out.old ++ printed term.now) }
{
    match term.node() {
        Node::Int(value) => print_integer(out, *value),
        Node::Atom(name) => print_atom(out, name.as_str()),
        Node::Tuple(parts) => {
            out.push(b'{')?;
            print_elements(out, parts, b'}')
        }
        Node::Map(pairs) => print_map(out, pairs),
        Node::List(parts) => {
            out.push(b'[')?;
            print_elements(out, parts, b']')
        }
        Node::Improper(parts, tail) => {
            out.push(b'[')?;
            print_elements(out, parts, b'|')?;
            print_term(out, tail)?;
            out.push(b']')
        }
        Node::Bits(bytes, used) => print_bits(out, bytes.as_slice(), *used),
    }
}

/// The pairs of a map, whose keys ascend.
#[cycle(print)]
fn print_map(out: &mut ByteList, pairs: &PairList) -> Result<(), Memory>
    ensures { OnOk result (out.new ≡ out.old ++ printed (map_of pairs.now)) }
{
    out.extend_from_slice(b"#{")?;
    for place in 0..pairs.len() {
        if place > 0 {
            out.push(b',')?;
        }
        if let Some(pair) = pairs.get(place) {
            print_term(out, &pair.0)?;
            out.extend_from_slice(b"=>")?;
            print_term(out, &pair.1)?;
        }
    }
    out.push(b'}')
}

/// The elements of a list or a tuple, and the byte behind them: a closing bracket or the bar of an improper list.
#[cycle(print)]
fn print_elements(out: &mut ByteList, parts: &TermList, closing: u8) -> Result<(), Memory>
    ensures { OnOk result (out.new ≡ out.old ++ printed_elements (closing ∷ []) (chain parts.now nil)) }
{
    for place in 0..parts.len() {
        if place > 0 {
            out.push(b',')?;
        }
        if let Some(part) = parts.get(place) {
            print_term(out, part)?;
        }
    }
    out.push(closing)
}

fn print_integer(out: &mut ByteList, value: i128) -> Result<(), Memory>
    ensures { OnOk result (out.new ≡ out.old ++ signed_decimal value) }
{
    let mut buffer = Buffer::new();
    out.extend_from_slice(buffer.format(value).as_bytes())
}

fn print_atom(out: &mut ByteList, name: &str) -> Result<(), Memory>
    ensures { OnOk result (out.new ≡ out.old ++ printed_atom (chars name.now)) }
{
    let bytes = name.as_bytes();
    if is_plain_atom(bytes) && !is_reserved(bytes) {
        out.extend_from_slice(bytes)
    } else {
        print_quoted(out, name)
    }
}

fn is_plain_atom(name: &[u8]) -> bool
    ensures { result ≡ is_plain_atom name.now }
{
    match name {
        [] => false,
        [first, rest @ ..] => {
            first.is_ascii_lowercase() && rest.iter().all(|byte| is_name_byte(*byte))
        }
    }
}

/// Whether a byte may stand in a plain atom behind its first letter.
pub(crate) fn is_name_byte(byte: u8) -> bool
    ensures { result ≡ is_name_character byte }
{
    byte.is_ascii_alphanumeric() || byte == b'_' || byte == b'@'
}

fn is_reserved(name: &[u8]) -> bool
    ensures { result ≡ is_reserved name.now }
{
    is_among(name, &RESERVED_WORDS)
}

/// Whether a name is one of some words.
fn is_among(name: &[u8], words: &[&str]) -> bool
    ensures { result ≡ list_any (λ word. bytes_eq name.now word.now) words.now }
{
    words.iter().any(|word| name == word.as_bytes())
}

fn print_quoted(out: &mut ByteList, name: &str) -> Result<(), Memory>
    ensures { OnOk result (out.new ≡ out.old ++ quoted_atom (chars name.now)) }
{
    out.push(b'\'')?;
    for character in name.chars() {
        print_quoted_character(out, character)?;
    }
    out.push(b'\'')
}

fn print_quoted_character(out: &mut ByteList, character: char) -> Result<(), Memory>
    ensures { OnOk result (out.new ≡ out.old ++ quoted_character character) }
{
    if character == '\\' {
        out.extend_from_slice(b"\\\\")
    } else if character == '\'' {
        out.extend_from_slice(b"\\'")
    } else if character.is_ascii_control() {
        print_code_point(out, character as u8)
    } else {
        out.extend_from_slice(character.encode_utf8(&mut [0; 4]).as_bytes())
    }
}

/// The escape of a code point, as `\x{1F}`.
fn print_code_point(out: &mut ByteList, code: u8) -> Result<(), Memory>
    ensures { OnOk result (out.new ≡ out.old ++ (codes "\\x{" ++ digits 16 true code ++ codes "}")) }
{
    out.extend_from_slice(b"\\x{")?;
    print_hexadecimal(out, code)?;
    out.push(b'}')
}

#[tactic(auto, using(std::proofs::lemmas::Fmt::hex_one_digit))]
fn print_hexadecimal(out: &mut ByteList, value: u8) -> Result<(), Memory>
    ensures { OnOk result (out.new ≡ out.old ++ digits 16 true value) }
{
    if value < 16 {
        return out.push(hexadecimal_digit(value));
    }
    out.push(hexadecimal_digit(value / 16))?;
    out.push(hexadecimal_digit(value % 16))
}

fn hexadecimal_digit(value: u8) -> u8
    requires { value < 16 }
    ensures { result ≡ digit_glyph true value }
{
    if value < 10 {
        b'0' + value
    } else {
        b'A' + (value - 10)
    }
}

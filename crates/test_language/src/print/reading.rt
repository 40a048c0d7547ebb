//! Conditional programs read, and texts that are none.
use fill_print::{Notation, ReadProgramError, print_switch, read_switch};
use fill_text::{List, NoMemory};
use std::alloc::Global;
use std::test::Fail;

const READ: usize = 1_000_000_000;

/// How many bytes begin a conditional program of the notation, or `READ` where the bytes are one that is printed again as
/// they are.
fn fault(alloc: Global, bytes: &[u8], notation: Notation) -> Result<usize, Fail> {
    match read_switch(alloc, bytes, notation) {
        Ok(switch) => {
            let printed = print_switch(alloc, &switch)?;
            Ok(if printed.as_slice() == bytes { READ } else { 0 })
        }
        Err(ReadProgramError::Bad { at }) => Ok(at),
        Err(e) => Err(e.into()),
    }
}

/// Whether this is that fault, by the tokens of saved programs.
fn is_fault(alloc: Global, bytes: &[u8], expected: usize) -> Result<bool, Fail> {
    Ok(fault(alloc, bytes, Notation::Second)? == expected)
}

#[test]
fn texts_are_read_and_printed_again(rt: HostRuntime) -> Result<(), Fail> {
    let texts = [
        "Switch(else=>Concat())",
        "Switch(!Match(1,[Digits],1)=>Concat(Const('k'));else=>Concat(Whole(Col(1))))",
        "Switch(Match(4294967295,[Start Upper],3)&!Match(2,[Word End],2)=>Concat();else=>Concat())",
        "Switch(else=>Concat(Sub(Col(1),CPos(-2147483648),CPos(2147483647))))",
        "Switch(else=>Concat(Sub(Col(1),Pos([Start Lower Dot],[],-2),Pos([],[At Ampersand End],1))))",
        "Switch(else=>Concat(Sub(Col(1),Pos([Digits],[End],1),CPos(0)),Const(',')))",
        "Switch(else=>Concat(Const('a\\'\\\\,\n\u{e9}\u{20ac}\u{1f600}')))",
        "Switch(else=>Concat(Whole(Select(2,1,1,Const(''),Whole(Col(1)),Const('x')))))",
        "Switch(else=>Concat(Whole(Select(1,1,1,Sub(Select(1,1,1,Whole(Select(1,1,1,Whole(Col(1))))),CPos(0),CPos(-1))))))",
    ];
    for text in texts {
        assert!(rt; is_fault(rt.alloc(), text.as_bytes(), READ)?, "{text}");
    }
    Ok(())
}

#[test]
fn hostile_texts_are_refused_at_the_first_wrong_byte(rt: HostRuntime) -> Result<(), Fail> {
    let texts: [(&[u8], usize); 30] = [
        (b"Switch(else=>Concat()", 21),
        (b"Switch(else=>Concat(Const('')))", 27),
        (b"", 0),
        (b"Switch(!!", 8),
        (b"Switch(else=>Concat(Whole(Col(0))))", 30),
        (b"Switch(else=>Concat(Whole(Col(4294967296))))", 39),
        (
            b"Switch(else=>Concat(Whole(Select(1,1,1,Whole(Select(1,1,1,Whole(Select(1,1,1,Whole(Select(",
            83,
        ),
        (b"Switch(else=>Concat())x", 22),
        (b"Switch(else=>Concat(Whole(Col(01", 30),
        (b"Switch(else=>Concat(Sub(Col(1),CPos(-0", 37),
        (b"Switch(else=>Concat(Sub(Col(1),CPos(00", 37),
        (b"Switch(else=>Concat(Sub(Col(1),CPos(-2147483649)", 46),
        (b"Switch(else=>Concat(Sub(Col(1),CPos(2147483648)", 45),
        (b"Switch(else=>Concat(Sub(Col(1),Pos([],[]", 39),
        (b"Switch(else=>Concat(Sub(Col(1),Pos([Start Start", 43),
        (b"Switch(else=>Concat(Sub(Col(1),Pos([End", 36),
        (b"Switch(else=>Concat(Sub(Col(1),Pos([],[Start", 40),
        (b"Switch(else=>Concat(Sub(Col(1),Pos([],[End Dot", 42),
        (b"Switch(else=>Concat(Sub(Col(1),Pos([Dot Dot Dot ", 47),
        (b"Switch(else=>Concat(Sub(Col(1),Pos([Dot],[],0", 44),
        (b"Switch(else=>Concat(Const('\xc3(", 28),
        (b"Switch(else=>Concat(Const('\xe0\x80", 28),
        (b"Switch(else=>Concat(Const('\xff", 27),
        (b"Switch(else=>Concat(Const('\\n", 28),
        (b"Switch(else=>Concat(Whole(Select(1,1,1,Const(''))", 48),
        (
            b"Switch(else=>Concat(Whole(Select(1,1,1,Const(''),Const(''),Const",
            59,
        ),
        (b"Switch(Match(1,[],1", 16),
        (b"Switch(Match(1,[Dot Dot Dot", 23),
        (b"Switch(Match(1,[Dot],4", 21),
        (b"Switch(Match(1,[Dot],1)&Match(1,[Dot],1)&", 40),
    ];
    for (text, at) in texts {
        assert!(rt; is_fault(rt.alloc(), text, at)?, "{at}");
    }
    Ok(())
}

#[test]
fn a_notation_has_names_for_its_own_tokens(rt: HostRuntime) -> Result<(), Fail> {
    let equals = b"Switch(else=>Concat(Sub(Col(1),Pos([Equals],[],1),CPos(0))))";
    assert!(rt; fault(rt.alloc(), equals, Notation::Second)? == 36);
    assert!(rt; fault(rt.alloc(), equals, Notation::Third)? == READ);
    assert!(rt; fault(rt.alloc(), equals, Notation::All)? == READ);
    let no_digit = b"Switch(Match(1,[NonDigit],1)=>Concat();else=>Concat())";
    assert!(rt; fault(rt.alloc(), no_digit, Notation::Second)? == READ);
    assert!(rt; fault(rt.alloc(), no_digit, Notation::Third)? == 19);
    assert!(rt; fault(rt.alloc(), no_digit, Notation::All)? == READ);
    Ok(())
}

/// A beginning, and then these bytes this many times.
fn repeated(
    alloc: Global,
    beginning: &[u8],
    bytes: &[u8],
    times: usize,
) -> Result<List<u8>, NoMemory> {
    let mut text = List::new(alloc);
    text.append(beginning)?;
    for _ in 0..times {
        text.append(bytes)?;
    }
    Ok(text)
}

#[test]
fn an_eighth_case_is_refused(rt: HostRuntime) -> Result<(), Fail> {
    let text = repeated(rt.alloc(), b"Switch(", b"Match(1,[Dot],1)=>Concat();", 8)?;
    assert!(rt; is_fault(rt.alloc(), text.as_slice(), 7 + 7 * 27)?);
    Ok(())
}

#[test]
fn a_million_brackets_are_refused_at_once(rt: HostRuntime) -> Result<(), Fail> {
    let text = repeated(rt.alloc(), b"", b"((((((((((", 100_000)?;
    assert!(rt; is_fault(rt.alloc(), text.as_slice(), 0)?);
    Ok(())
}

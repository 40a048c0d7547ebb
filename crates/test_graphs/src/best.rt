//! The first programs of small graphs, a line for each.
use crate::learn::{Given, Learned, Over, With, learns};
use std::alloc::Global;
use std::test::Fail;

/// Whether these are the first programs that explain the text for a cell of two words.
fn are_first(alloc: Global, text: &str, k: u32, lines: &str) -> Result<bool, Fail> {
    let given = Given {
        cells: "John Smith",
        has_two: false,
        text,
        over: Over::Nothing,
        with: With::TwoLookups,
    };
    learns(alloc, given, Learned::First(k, lines))
}

#[test]
fn first_programs_of_two_words(rt: HostRuntime) -> Result<(), Fail> {
    for (text, k, lines) in [
        // All three programs cost the same.
        (
            "Smith",
            3,
            "Concat(Sub(Col(1),Pos([],[Upper],-1),CPos(-1)))\nConcat(Sub(Col(1),Pos([],[Alpha],-1),CPos(-1)))\nConcat(Sub(Col(1),Pos([],[Word],-1),CPos(-1)))\n",
        ),
        (
            "Smith",
            2,
            "Concat(Sub(Col(1),Pos([],[Upper],-1),CPos(-1)))\nConcat(Sub(Col(1),Pos([],[Alpha],-1),CPos(-1)))\n",
        ),
        // Only one has no atoms.
        ("", 20, "Concat()\n"),
    ] {
        assert!(rt; are_first(rt.alloc(), text, k, lines)?, "{k}");
    }
    Ok(())
}

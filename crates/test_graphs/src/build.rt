//! The least programs of the graphs of small examples.
use crate::learn::{Given, Learned, Over, With, learns};
use std::alloc::Global;
use std::test::Fail;

/// Whether this is learned from a sheet of one cell.
fn learns_from_one(
    alloc: Global,
    (cell, text): (&str, &str),
    (over, with): (Over, With),
    learned: Learned,
) -> Result<bool, Fail> {
    let given = Given {
        cells: cell,
        has_two: false,
        text,
        over,
        with,
    };
    learns(alloc, given, learned)
}

#[test]
fn pieces_and_wholes(rt: HostRuntime) -> Result<(), Fail> {
    let nothing = (Over::Nothing, With::TwoLookups);
    for (cell, text, program) in [
        (
            "John Smith",
            "Smith",
            "Concat(Sub(Col(1),Pos([],[Upper],-1),CPos(-1)))",
        ),
        ("1", "", "Concat()"),
    ] {
        let learned = Learned::Least(program);
        assert!(rt;
            learns_from_one(rt.alloc(), (cell, text), nothing, learned)?,
            "{cell}"
        );
    }
    Ok(())
}

#[test]
fn wholes_of_two_columns(rt: HostRuntime) -> Result<(), Fail> {
    let given = Given {
        cells: "a,ab",
        has_two: true,
        text: "aab",
        over: Over::Nothing,
        with: With::TwoLookups,
    };
    let learned = Learned::Least("Concat(Whole(Col(1)),Whole(Col(2)))");
    assert!(rt; learns(rt.alloc(), given, learned)?);
    Ok(())
}

#[test]
fn constants_of_separators_alone(rt: HostRuntime) -> Result<(), Fail> {
    let separators = (Over::Nothing, With::Separators);
    assert!(rt;
        learns_from_one(
            rt.alloc(),
            ("Smith", "Mr Smith"),
            separators,
            Learned::Nothing
        )?
    );
    Ok(())
}

#[test]
fn lookups_and_what_is_cheaper(rt: HostRuntime) -> Result<(), Fail> {
    for (example, given, program) in [
        // A month by its number.
        (
            ("2012-03-11", "March"),
            (Over::Months, With::OneLookup),
            "Concat(Whole(Select(2,1,1,Sub(Col(1),Pos([Hyphen],[],1),Pos([],[Hyphen],-1)))))",
        ),
        (
            ("2012-03-11", "March"),
            (Over::Months, With::NoLookups),
            "Concat(Const('March'))",
        ),
        // A constant of two characters costs less than a lookup by two columns.
        (
            ("pen", "$2"),
            (Over::Prices, With::TwoLookups),
            "Concat(Const('$2'))",
        ),
        // Lookups inside each other.
        (
            ("p", "Monday"),
            (Over::Chain, With::SecondThreeLookups),
            "Concat(Whole(Select(2,3,1,Whole(Select(2,2,1,Whole(Select(2,1,1,Whole(Col(1)))))))))",
        ),
        (
            ("p", "Monday"),
            (Over::Chain, With::SecondTwoLookups),
            "Concat(Const('Monday'))",
        ),
    ] {
        let learned = Learned::Least(program);
        assert!(rt;
            learns_from_one(rt.alloc(), example, given, learned)?,
            "{program}"
        );
    }
    Ok(())
}

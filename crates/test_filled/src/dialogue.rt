//! Dialogues about cells in doubt: each gives the sheet that the same words give with an example for each reply.
use crate::scene::{Scene, empty_scene, status};
use std::alloc::Global;
use std::test::Fail;

/// A dialogue, and the words that stand for its replies.
#[derive(Clone, Copy)]
struct Row<'a> {
    /// The bytes of the file `s.csv`.
    sheet: &'a [u8],
    words: &'a [&'a str],
    /// The lines of the answers.
    input: &'a [u8],
    examples: &'a [&'a str],
}

/// One row is in doubt, that of Emmy A Noether.
const PEOPLE: &[u8] =
    b"Name,City,Label\nAda Byron,London,Byron (London)\nMax Planck,Kiel,\nLise Meitner,Graz,Meitner (Graz)\nEmmy A Noether,Erlangen,\nCarl Gauss,Kassel,\nEmil Artin,,\n";

const LABEL: &[&str] = &["s.csv", "--to", "Label", "--state"];

/// Two rows are in doubt. The fourth is asked first: its objector costs less.
const NAMES: &[u8] = b"Name,Last\nAda Byron,Byron\nMax Planck,\nX\n";

const LAST: &[&str] = &["s.csv", "--to", "Last", "--state", "--profile", "1"];

/// A run of these words over this input.
fn scene_of(alloc: Global, sheet: &[u8], words: &[&str], more: &[&str]) -> Result<Scene, Fail> {
    let mut scene = empty_scene(alloc)?;
    for word in words {
        scene.words.push(String::from_str(alloc, word)?)?;
    }
    for word in more {
        scene.words.push(String::from_str(alloc, word)?)?;
    }
    scene.folder.cabinet.put("s.csv", sheet)?;
    Ok(scene)
}

/// Whether a dialogue ends as the run with its examples does.
fn is_alike(alloc: Global, row: &Row) -> Result<bool, Fail> {
    let mut asked = scene_of(alloc, row.sheet, row.words, &["--ask"])?;
    let mut told = scene_of(alloc, row.sheet, row.words, row.examples)?;
    let first = status(alloc, &mut asked, row.input);
    let second = status(alloc, &mut told, b"");
    Ok(first == second && first <= 1 && asked.out.written() == told.out.written())
}

#[test]
fn replies_are_examples(rt: HostRuntime) -> Result<(), Fail> {
    let rows: [(&[u8], &[&str]); 5] = [
        (b"\n", &["--example", "5=A Noether (Erlangen)"]),
        (b"2\r\n", &["--example", "5=Noether (Erlangen)"]),
        (b"2", &["--example", "5=Noether (Erlangen)"]),
        (b"=2\n", &["--example", "5=2"]),
        (b"-\n", &["--example", "5="]),
    ];
    for (input, examples) in rows {
        let row = Row {
            sheet: PEOPLE,
            words: LABEL,
            input,
            examples,
        };
        assert!(rt; is_alike(rt.alloc(), &row)?, "{input:?}");
    }
    Ok(())
}

#[test]
fn other_lines_are_none(rt: HostRuntime) -> Result<(), Fail> {
    let rows: [(&[u8], &[&str]); 5] = [
        (b"\xff\n2\n", &["--example", "5=Noether (Erlangen)"]),
        (b"u\n2\n", &["--example", "5=Noether (Erlangen)"]),
        (b"s\n2\n", &[]),
        (b"q\n2\n", &[]),
        (b"", &[]),
    ];
    for (input, examples) in rows {
        let row = Row {
            sheet: PEOPLE,
            words: LABEL,
            input,
            examples,
        };
        assert!(rt; is_alike(rt.alloc(), &row)?, "{input:?}");
    }
    Ok(())
}

#[test]
fn replies_follow_one_another(rt: HostRuntime) -> Result<(), Fail> {
    let rows: [(&[u8], &[&str]); 5] = [
        (b"s\nY\n", &["--example", "3=Y"]),
        (b"s\nu\nq\n", &[]),
        (b"Max\nu\ns\nY\n", &["--example", "3=Y"]),
        (b"s\ns\nY\n", &[]),
        (b"Max\nq\n", &["--example", "4=Max"]),
    ];
    for (input, examples) in rows {
        let row = Row {
            sheet: NAMES,
            words: LAST,
            input,
            examples,
        };
        assert!(rt; is_alike(rt.alloc(), &row)?, "{input:?}");
    }
    Ok(())
}

/// The status of a dialogue over these words, where a sheet also stands on standard input.
fn status_of(alloc: Global, words: &[&str], more: &[&str]) -> Result<u8, Fail> {
    let mut scene = scene_of(alloc, PEOPLE, words, more)?;
    scene.folder.cabinet.put("-", PEOPLE)?;
    Ok(status(alloc, &mut scene, b"2\n"))
}

#[test]
fn questions_need_an_input_and_an_output(rt: HostRuntime) -> Result<(), Fail> {
    let words = ["-", "--to", "Label"];
    assert_eq!(rt; status_of(rt.alloc(), &words, &[])?, 0);
    assert_eq!(rt; status_of(rt.alloc(), &words, &["--ask"])?, 2);
    assert_eq!(rt; status_of(rt.alloc(), LABEL, &["--ask"])?, 0);
    assert_eq!(rt; status_of(rt.alloc(), LABEL, &["--ask", "--quiet"])?, 2);
    Ok(())
}

/// The text of the third row clashes with that of the second, so it is not learned from.
#[test]
fn a_filled_cell_is_not_asked_about(rt: HostRuntime) -> Result<(), Fail> {
    let row = Row {
        sheet: b"x,y\na,a\na,b\n",
        words: &["s.csv", "--to", "y"],
        input: b"c\n",
        examples: &[],
    };
    assert!(rt; is_alike(rt.alloc(), &row)?);
    Ok(())
}

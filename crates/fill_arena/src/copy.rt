//! Copies of what some graphs name.
ghost use Rattle.std.specs.Prelude.{◌≡◌, ◌↔◌, ◌++◌, ◌∷◌, [], ℕ, ◌<◌, length, IfOk, OnErr};
ghost use Rattle.std.specs.List.{AllZip};
ghost use Rattle.fill_tree.specs.Tree.{Atoms};
ghost use Rattle.fill_arena.specs.Contents.{EachIn, IsGraph};
ghost use Rattle.fill_arena.specs.Copied.{AreCopied, IsMarked};
ghost use Rattle.fill_arena.specs.Named.{IsNamed, Names};
ghost use Rattle.fill_arena.specs.Stands.{ProgramStands};

use crate::arena::Arena;
use crate::marks::named_marks;
use crate::numbers::GraphId;
use crate::renumber::{renumber_entry, renumber_graphs};
use fill_text::NoMemory;
use std::alloc::Global;

impl Arena {
    /// A fresh arena with what the listed graphs name, directly or through others, and nothing else.
    ///
    /// Each listed number is replaced by the one under which the same programs stand there. The work is linear in what
    /// this arena lists. It takes no step.
    pub fn copy(&self, live: &mut [GraphId]) -> Result<Arena, NoMemory>
        requires { EachIn (IsGraph self.now) live.old }
        ensures length { length live.new ≡ length live.old }
        ensures graphs { IfOk result (λ made. EachIn (IsGraph made) live.new) }
        ensures same { IfOk result (λ made. AllZip (λ g h. (p : Atoms) → ProgramStands made h p ↔ ProgramStands self.now g p) live.old live.new) }
        ensures named { IfOk result (λ made. (n : ℕ) → n < length made → IsNamed made live.new n) }
        ensures err { OnErr result (live.new ≡ live.old) }
    {
        let alloc = self.alloc();
        let marks = named_marks(alloc, self, live)?;
        let mut made = Arena::new(alloc);
        let table = copy_marked(alloc, self, marks.as_slice(), &mut made)?;
        renumber_graphs(table.as_slice(), live);
        Ok(made)
    }
}

/// Puts the marked sets and graphs into an empty arena, in their order, and gives a table of their new numbers.
fn copy_marked(
    alloc: Global,
    arena: &Arena,
    marks: &[bool],
    made: &mut Arena,
) -> Result<Vec<Option<usize>>, NoMemory>
    requires long { length marks.now ≡ length arena.now }
    requires closed { (m n : ℕ) → IsMarked marks.now m → Names arena.now m n → IsMarked marks.now n }
    requires empty { made.old ≡ [] }
    ensures long { IfOk result (λ table. length table.items ≡ length arena.now) }
    ensures copied { IfOk result (λ table. AreCopied arena.now marks.now made.new table.items) }
{
    let mut table = Vec::with_capacity(alloc, marks.len())?;
    for number in 0..marks.len() {
        let new = copy_next(alloc, arena, marks, number, table.as_slice(), made)?;
        table.push(new)?;
    }
    Ok(table)
}

/// Copies the entry of a number, if it is marked, and gives its new number. The table has those of the older ones.
fn copy_next(
    alloc: Global,
    arena: &Arena,
    marks: &[bool],
    number: usize,
    table: &[Option<usize>],
    made: &mut Arena,
) -> Result<Option<usize>, NoMemory>
    requires long { length marks.now ≡ length arena.now }
    requires within { number < length arena.now }
    requires next { number ≡ length table.now }
    requires closed { (m n : ℕ) → IsMarked marks.now m → Names arena.now m n → IsMarked marks.now n }
    requires copied { AreCopied arena.now marks.now made.old table.now }
    ensures { IfOk result (λ new. AreCopied arena.now marks.now made.new (table.now ++ new ∷ [])) }
{
    if !marks[number] {
        return Ok(None);
    }
    arena.keeps_made();
    let entry = renumber_entry(alloc, table, arena.entry(number))?;
    Ok(Some(made.intern(entry)?))
}

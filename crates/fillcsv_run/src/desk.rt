//! A sheet that is ready to be filled.
ghost use Rattle.std.specs.Prelude.{◌≡◌, ◌≤◌, ℕ, List as Listed, [], IfOk, IsErrOf, OnOk, false, string_bytes, true};
ghost use Rattle.fill_edge.specs.Outside.{NoneFell, Rose};
ghost use Rattle.fill_passes.specs.Files.{IsTold};
ghost use Rattle.fill_tree.specs.Grammar.{AreSettings};
ghost use Rattle.fillcsv_options.specs.Words.{data_of};
ghost use Rattle.fillcsv_run.specs.Ground.{depth_of, profile_of, settings_of};
ghost use Rattle.fillcsv_dialogue.specs.Told.{Grew};
ghost use Rattle.fillcsv_run.specs.Asking.{heard};
ghost use Rattle.fillcsv_run.specs.Pages.{page_of};
ghost use Rattle.fillcsv_run.specs.Read.{AreChosen, AreParts, IsAsked, IsLaid, IsReady, page_data, read_data};

use crate::columns::output_of;
use crate::explain::Spoken;
use crate::head;
use crate::opening::SheetFile;
use crate::saving::{RuleFrame, saving_of};
use fill_edge::{Cabinet, LAST_PLACE, Ledger, ReadError, Sink, Steps, read_all};
use fill_session::Session;
use fill_sheet::Sheet;
use fill_stream::Source;
use fill_tables::Tables;
use fill_text::{List, NoMemory};
use fill_tree::{Constants, Example, Profile, Settings};
use fillcsv_columns::Choice;
use fillcsv_dialogue::{Topic, ask};
use fillcsv_filling::MOST_LONG_RECORDS;
use fillcsv_options::{Asked, Depth, ProfileName};
use fillcsv_rows::Form;
use std::alloc::Global;
use std::mem;

/// What is told of the first cells in doubt.
#[derive(Clone, Copy)]
pub(crate) enum Doubts {
    /// Nothing.
    Untold,
    /// Both answers.
    Answers,
    /// Both answers, and the rule behind the other one.
    Rules,
}

impl Doubts {
    /// What the words ask for.
    pub(crate) fn of(asked: &Asked) -> Doubts {
        if asked.quiet {
            Doubts::Untold
        } else if asked.explain {
            Doubts::Rules
        } else {
            Doubts::Answers
        }
    }
}

/// A sheet that is ready to be filled.
#[derive(Drop)]
pub(crate) struct Desk {
    /// The name of its file.
    pub file: String,
    /// Whether the first record names the columns.
    pub header: bool,
    /// The columns that rules may read, and the one that is filled.
    pub choice: Choice,
    /// The column whose cells are examples, where it has some.
    pub output: Option<u32>,
    /// The tables in which rules may look up.
    pub tables: Tables,
    /// The bounds of the rules.
    pub settings: Settings,
    /// The texts that are typed for rows.
    pub typed: List<Example>,
    /// How answers are written.
    pub form: Form,
    /// What stands before the records of rows.
    pub head: List<u8>,
    /// What the rule has beside its program, where it is to be saved.
    pub saving: Option<RuleFrame>,
    /// By which names rules are told.
    pub spoken: Spoken,
    /// What is told of the first cells in doubt.
    pub doubts: Doubts,
    /// Whether cells in doubt are asked about.
    pub ask: bool,
}

impl Desk {
    /// The sheet that was read, for what the words ask.
    pub(crate) fn of(alloc: Global, asked: &Asked, read: SheetFile) -> Result<Desk, NoMemory>
        requires { AreChosen read.choice }
        ensures laid { IfOk result IsLaid }
        ensures page { (bytes : Listed ℕ) → AreParts (data_of asked.now) bytes read → IfOk result (λ desk. page_data bytes desk ≡ page_of (data_of asked.now) (read_data (data_of asked.now) bytes read)) }
        ensures ready { (bytes : Listed ℕ) → AreParts (data_of asked.now) bytes read → IfOk result (IsReady bytes) }
        ensures file { IfOk result (λ desk. string_bytes desk.file ≡ string_bytes asked.now.file) }
        ensures asks { IfOk result (λ desk. desk.ask ≡ asked.now.ask) }
    {
        let form = head::form_of(asked, &read);
        let head = head::head_of(alloc, asked, &read, &form)?;
        let saving = saving_of(alloc, asked, &read)?;
        let spoken = Spoken::of(alloc, asked, &read)?;
        let file = String::from_str(alloc, asked.file.as_str())?;
        let SheetFile {
            choice,
            typed,
            tables,
            ..
        } = read;
        Ok(Desk {
            file,
            header: asked.header,
            output: output_of(asked.replace, choice.to),
            choice,
            tables,
            settings: settings_of(asked.profile, asked.depth),
            typed,
            form,
            head,
            saving,
            spoken,
            doubts: Doubts::of(asked),
            ask: asked.ask,
        })
    }

    /// Asks about the cells in doubt, where that is wanted: the replies are typed texts beside those that the words give. The
    /// whole sheet stands in memory for it. A read that fails is answered as memory that ran out is.
    pub(crate) fn ask_about<C: Cabinet, S: Source, E: Sink, L: Ledger>(
        &mut self,
        alloc: Global,
        cabinet: &mut C,
        input: &mut S,
        err: &mut E,
        steps: &mut Steps<L>,
    ) -> Result<(), Unasked>
        requires { IsLaid self.old }
        ensures laid { OnOk result (IsLaid self.new) }
        ensures same { (self.new.file ≡ self.old.file) × (self.new.ask ≡ self.old.ask) }
        ensures asked { (bytes : Listed ℕ) → IsTold (C.files cabinet.old) (string_bytes self.old.file) bytes → IsReady bytes self.old →
            OnOk result (IsAsked bytes self.old.ask self.old self.new (heard (S.left input.old) (S.faults input.old) (S.faults input.new))) }
        ensures silent { self.old.ask ≡ false → err.new ≡ err.old }
        ensures grew { Grew (E.written err.old) (E.written err.new) (E.faults err.old) (E.faults err.new) }
        ensures files { C.files cabinet.new ≡ C.files cabinet.old }
        ensures later { NoneFell (C.faults cabinet.old) (C.faults cabinet.new) }
        ensures failed { IsErrOf result Unasked.Unread → Rose (C.faults cabinet.old (string_bytes self.old.file)) (C.faults cabinet.new (string_bytes self.old.file)) }
    {
        if !self.ask {
            return Ok(());
        }
        let bytes = match read_all(alloc, cabinet, self.file.as_str(), LAST_PLACE) {
            Ok(bytes) => bytes,
            Err(ReadError::ReadFault) => return Err(Unasked::Unread),
            Err(_) => return Err(Unasked::NoMemory),
        };
        match self.ask_over(alloc, bytes.as_slice(), input, err, steps) {
            Ok(()) => Ok(()),
            Err(NoMemory) => Err(Unasked::NoMemory),
        }
    }

    /// Asks about the cells in doubt of a sheet of these bytes.
    fn ask_over<S: Source, E: Sink, L: Ledger>(
        &mut self,
        alloc: Global,
        bytes: &[u8],
        input: &mut S,
        err: &mut E,
        steps: &mut Steps<L>,
    ) -> Result<(), NoMemory>
        requires { IsLaid self.old }
        ensures laid { OnOk result (IsLaid self.new) }
        ensures same { (self.new.file ≡ self.old.file) × (self.new.ask ≡ self.old.ask) }
        ensures asked { IsReady bytes.now self.old →
            OnOk result (IsAsked bytes.now true self.old self.new (heard (S.left input.old) (S.faults input.old) (S.faults input.new))) }
        ensures grew { Grew (E.written err.old) (E.written err.new) (E.faults err.old) (E.faults err.new) }
    {
        let tables = mem::replace(&mut self.tables, Tables::new(alloc));
        let mut session = self.open_session(alloc, bytes, tables)?;
        let topic = Topic {
            words: self.typed.as_slice(),
            columns: self.spoken.columns(),
            above: if self.header { 1 } else { 0 },
        };
        let typed = ask(alloc, &topic, &mut session, input, err, steps)?;
        self.typed = typed;
        self.tables = session.into_tables();
        Ok(())
    }

    /// A session over all rows of a sheet of these bytes, with these tables.
    fn open_session(&self, alloc: Global, bytes: &[u8], tables: Tables) -> Result<Session, NoMemory>
        requires { IsLaid self.now }
        ensures over { IsReady bytes.now self.now → IfOk result (λ session. session.spaces.ground ≡ record { settings = self.now.settings; sheet = (page_data bytes.now self.now).over.sheet; tables = tables }) }
        ensures empty { IfOk result (λ session. session.examples ≡ []) }
    {
        let inputs = &self.choice.from;
        match Sheet::read_up_to(
            alloc,
            MOST_LONG_RECORDS,
            bytes,
            self.header,
            inputs,
            self.output,
        ) {
            Ok(sheet) => Session::new(alloc, self.settings, sheet, tables),
            // its rows could be read, so that only memory can be short, if the file is the same
            Err(_) => Err(NoMemory),
        }
    }
}

/// Why cells were not asked about.
#[derive(Clone, Copy, Debug, PartialEq, Eq)]
pub(crate) enum Unasked {
    /// The file could not be read again.
    Unread,
    /// Out of memory.
    NoMemory,
}

/// The settings that words ask for, by the name of the profile and how many lookups may stand inside each other.
fn settings_of(name: ProfileName, depth: Depth) -> Settings
    ensures value { result ≡ settings_of name depth }
    ensures bounded { AreSettings result }
{
    let profile = profile_of(name);
    Settings {
        depth: depth_of(depth).min(profile.depth),
        constants: Constants::Any,
        profile,
    }
}

/// The profile of a name.
fn profile_of(name: ProfileName) -> Profile
    ensures value { result ≡ profile_of name }
    ensures bounded { result.depth ≤ 3 }
{
    match name {
        ProfileName::First => Profile::FIRST,
        ProfileName::Second => Profile::SECOND,
        ProfileName::Third => Profile::THIRD,
    }
}

/// How many lookups may stand inside each other.
fn depth_of(depth: Depth) -> u8
    ensures { result ≡ depth_of depth }
{
    match depth {
        Depth::One => 1,
        Depth::Two => 2,
        Depth::Three => 3,
    }
}

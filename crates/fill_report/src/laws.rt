//! Laws of the definitions that the contracts of this crate cite.
//!
//! Each function does nothing: what it tells is its clause, which holds over all grounds and for all scripts.
ghost use Rattle.fill_report.specs.Laws.{BeginningsAreFronts, ReportIsOne, SwitchIsSpelled};

/// The entries of a script have at most one report, so what is written is determined by the ground and the entries.
pub fn report_is_one()
    ensures { ReportIsOne }
{}

/// What stands on a sink after a fault or after memory ran out is of the front of the whole report, wherever there is one.
pub fn beginnings_are_fronts()
    ensures { BeginningsAreFronts }
{}

/// The conditional program that a report shows is one that the notation has, so its text is read back.
pub fn switch_is_spelled()
    ensures { SwitchIsSpelled }
{}

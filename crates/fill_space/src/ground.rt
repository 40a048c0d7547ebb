//! What programs are learned over.
use fill_sheet::Sheet;
use fill_tables::Tables;
use fill_tree::Settings;

/// What programs are learned over: the settings, the sheet and the tables.
#[derive(Debug, Drop)]
pub struct Ground {
    pub settings: Settings,
    pub sheet: Sheet,
    pub tables: Tables,
}

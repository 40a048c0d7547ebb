//! Rules with their tables.
use fill_tables::Tables;
use fillcsv_rules::Rule;

/// A rule, and the tables that it looks up in, in the order of its lookups.
#[derive(Debug, Drop)]
pub struct LoadedRule {
    pub rule: Rule,
    pub tables: Tables,
}

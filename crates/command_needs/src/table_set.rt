//! Sets of tables.

ghost use Rattle.std.specs.Prelude.{◌≡◌, ◌==◌, ◌||◌, false, not};
ghost use Rattle.std.specs.List.{list_all};
ghost use Rattle.depot_model.specs.Tables.{is_in};
ghost use Rattle.depot_model.specs.db_records.Table.{all_tables, table_number};
ghost use Rattle.depot_model.specs.db_records.declared.table.TableId.{TableId as AnyTable};
ghost use Rattle.command_needs.specs.Sets.{has_table};

use depot_model::records::TableId;

/// Some of the tables. It takes no memory.
#[derive(Clone, Copy)]
pub struct TableSet {
    /// By its number, whether a table is among them.
    has: [bool; 11],
}

impl TableSet {
    /// No table.
    pub fn none() -> TableSet
        ensures { (table : AnyTable) → has_table result table ≡ false }
    {
        TableSet { has: [false; 11] }
    }

    /// Whether there is none.
    pub fn is_empty(&self) -> bool
        ensures { result ≡ list_all (λ table. not (has_table self.now table)) all_tables }
    {
        TableId::ALL.iter().all(|table| !self.has(*table))
    }

    /// Whether a table is among them.
    pub fn has(&self, table: TableId) -> bool
        ensures { result ≡ has_table self.now table }
    {
        self.has[table.number()]
    }

    /// These and one more.
    pub fn with(self, table: TableId) -> TableSet
        ensures { (other : AnyTable) →
            has_table result other ≡ (has_table self other || (table_number table == table_number other)) }
    {
        let mut has = self.has;
        has[table.number()] = true;
        TableSet { has }
    }

    /// These and others.
    pub fn with_all(self, tables: &[TableId]) -> TableSet
        ensures { (table : AnyTable) → has_table result table ≡ (has_table self table || is_in tables.now table) }
    {
        let mut set = self;
        for table in tables {
            set = set.with(*table);
        }
        set
    }
}

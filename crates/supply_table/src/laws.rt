//! What a table's promise is worth.
ghost use Rattle.supply_table.specs.Laws.{TableSupplies};

/// Ticks that follow a table, from whatever phase on, are supplied as its promise says.
pub fn table_supplies()
    ensures { TableSupplies }
{}

use handler_table::Table;

/// A scope by its name, and the handlers that are installed in it.
#[derive(Drop)]
pub struct Installed {
    pub scope: u32,
    pub table: Table,
}

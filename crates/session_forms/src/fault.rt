use jolie_trees::Tree;

/// A fault: its name by its place in the names of the program, and its value.
#[derive(Debug, Drop)]
pub struct Fault {
    pub name: u32,
    pub value: Tree,
}

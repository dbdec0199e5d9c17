use behaviour_tree::Program;

/// Who acts: a strand of a session, and its service by the number that it has in the program.
#[derive(Clone, Copy)]
pub struct Actor<'a> {
    pub program: &'a Program,
    pub service: u32,
    pub strand: u64,
}

/// The number of a strand. None is given twice.
#[derive(Clone, Copy)]
pub struct StrandNo {
    pub number: u64,
}

/// The members of a strand: so many strands from the first on, whose numbers follow one another.
#[derive(Clone, Copy)]
pub struct Members {
    pub first: StrandNo,
    pub count: u64,
}

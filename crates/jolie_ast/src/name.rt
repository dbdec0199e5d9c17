use jolie_trees::Text;

/// A word of the text and its place.
#[derive(Debug, Drop)]
pub struct Name {
    pub text: Text,
    pub at: u32,
}

/// A string of the text, as it is meant, and its place.
#[derive(Debug, Drop)]
pub struct Quoted {
    pub text: Text,
    pub at: u32,
}

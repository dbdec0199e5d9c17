ghost use Rattle.jolie_tokens.specs.Laws.{HaveOneReading};

/// Each text is read or refused, in one way, and never both.
pub fn texts_have_one_reading()
    ensures { HaveOneReading }
{}

//! The promise on small lists of calls.

ghost use Rattle.session.specs.Example.{Shown};

/// Lists of calls that keep the promise, and answers that do not: shown by computing.
///
/// This does nothing: it is here for what it states.
pub fn shown()
    ensures { Shown }
{}

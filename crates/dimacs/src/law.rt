//! Laws of the format: what holds of its texts, whatever is called.

ghost use Rattle.dimacs.specs.Importing.{ImportsAsLoads};
ghost use Rattle.dimacs.specs.Statements.{LinesAreTold};

/// A line that begins some bytes is told by them: what it states, and where it ends.
///
/// This does nothing: it is here for what it states.
pub fn lines_are_told()
    ensures { LinesAreTold }
{}

/// A text and an order file that state the same size and pairs leave the same tables.
///
/// This does nothing: it is here for what it states.
pub fn imports_as_loads()
    ensures { ImportsAsLoads }
{}

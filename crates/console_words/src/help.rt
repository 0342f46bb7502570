//! What `help` prints.

/// The lines that can be typed.
pub(crate) const HELP: &str = "\
Before a sheet is open:
  columns 1          a cost is one number, as it is without this line
  columns 2          a cost is two numbers; the second decides where the first are equal
  size N             open a sheet of N left and N right blocks, from 1 to 64
On an open sheet:
  enter L R COST     a reading of the pair, which then stands at its greatest since it was
                     struck (with two columns: enter L R COST COST)
  strike L R         the pair is absent
  read L R           the cost of the pair
  settle             find a pairing of least cost, and prices
On a settled sheet:
  quote L R          the cost of the pair, and what it exceeds its two prices by
  total              the least cost
  marks              for each pair 1 if a pairing of least cost has it, else 0
  start              begin the walk through all pairings of least cost
  reopen             back to the open sheet
In a walk:
  next               the next pairing
  close              back to the settled sheet
At any time:
  short TABLE CALL ..  make the call with this table one place short; the tables are
                       costs, standing, partners, left, right, walk and marks
  help               these lines
  quit               end the program
Blocks are numbered from 0. Empty lines and lines that begin with # are skipped.
";

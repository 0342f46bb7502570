//! An open sheet with its tables, and the lines that are typed on it.

ghost use Rattle.std.specs.Prelude.{◌≡◌, IfOk};
ghost use Rattle.sheet.specs.Size.{size_of};
ghost use Rattle.session.specs.Lists.{lengths, right_lengths};
ghost use Rattle.session.specs.Runs.{state_of, tables_of};

use crate::answer_lines::push_answer;
use crate::help::HELP;
use crate::request::Request;
use crate::sheet_size::SheetSize;
use crate::table_name::{TableName, handed_lengths};
use crate::turn::Turn;
use crate::typed_cost::TypedCost;
use session::{Act, Answer, Call, Lengths, SheetTables, State, make};
use sheet::open;
use std::alloc::{AllocError, Global};

/// A sheet in its state, with its tables, which have the right lengths.
#[derive(Drop)]
pub struct Desk<K> {
    pub state: State,
    pub tables: SheetTables<K>,
    ghost fit: { lengths (tables_of tables) ≡ right_lengths (size_of (state_of state).sheet) },
}

impl<K: TypedCost> Desk<K> {
    ghost use Rattle.console_words.specs.Moving.{IsBlank, Performs, Serves};

    /// Opens a sheet over new tables.
    pub(crate) fn open(heap: Global, size: SheetSize) -> Result<Desk<K>, AllocError>
        ensures { IfOk result (IsBlank K.Cost size.blocks) }
    {
        let SheetSize { blocks } = size;
        let mut tables = SheetTables::new(heap, blocks)?;
        let (costs, standing) = (&mut tables.costs, &mut tables.standing);
        let Ok(sheet) = open(blocks, costs.as_mut_slice(), standing.as_mut_slice()) else {
            unreachable!();
        };
        Ok(Desk {
            state: State::Open(sheet),
            tables,
        })
    }

    /// Performs a call, which is handed a table one place short, or all of them whole.
    fn perform(
        self,
        heap: Global,
        act: Act<K>,
        short: Option<TableName>,
    ) -> Result<(Desk<K>, Answer<K>), AllocError>
        ensures { IfOk result (λ made. Performs K.Cost self act short made.1 made.0) }
    {
        let Desk { state, mut tables } = self;
        let handed = handed_lengths(short, Lengths::right(state.size()));
        let (state, answer) = make(heap, state, &mut tables, Call { act, handed });
        Ok((Desk { state, tables }, answer?))
    }

    /// Does what a request asks for.
    pub(crate) fn serve(
        self,
        heap: Global,
        request: Request<K>,
    ) -> Result<(Desk<K>, Turn), AllocError>
        ensures { IfOk result (λ made. Serves K.Cost K.written self request made.0 made.1) }
    {
        let mut text = String::new(heap);
        match request {
            Request::Quit => Ok((self, Turn::Over)),
            Request::Help => {
                text.push_str(HELP)?;
                Ok((self, Turn::Said(text)))
            }
            Request::Make { act, short } => {
                let (desk, answer) = self.perform(heap, act, short)?;
                push_answer(&mut text, act, &desk.state, answer)?;
                Ok((desk, Turn::Said(text)))
            }
        }
    }
}

//! The tables of a sheet by name, and calls that are handed one of them a place short.

ghost use Rattle.std.specs.Prelude.{◌≡◌, ◌≢◌, IfSome, IfNone};
ghost use Rattle.console_words.specs.declared.table_name.TableName.{TableName};
ghost use Rattle.console_words.specs.Naming.{table_word};
ghost use Rattle.console_words.specs.Handing.{short_lengths, handed_lengths};

use session::Lengths;

/// Which table of a sheet a line names.
#[derive(Clone, Copy)]
pub enum TableName {
    Costs,
    Standing,
    Partners,
    Left,
    Right,
    Walk,
    Marks,
}

impl TableName {
    /// The table that a word names.
    pub fn from_word(word: &str) -> Option<TableName>
        ensures found { IfSome result (λ table. table_word table ≡ word.now) }
        ensures unknown { IfNone result ((table : TableName) → table_word table ≢ word.now) }
    {
        match word {
            "costs" => Some(TableName::Costs),
            "standing" => Some(TableName::Standing),
            "partners" => Some(TableName::Partners),
            "left" => Some(TableName::Left),
            "right" => Some(TableName::Right),
            "walk" => Some(TableName::Walk),
            "marks" => Some(TableName::Marks),
            _ => None,
        }
    }

    /// These lengths, with one place less of this table.
    pub fn shorten(self, whole: Lengths) -> Lengths
        ensures { result ≡ short_lengths self whole }
    {
        let mut lengths = whole;
        match self {
            TableName::Costs => lengths.costs = whole.costs.saturating_sub(1),
            TableName::Standing => lengths.standing = whole.standing.saturating_sub(1),
            TableName::Partners => lengths.partners = whole.partners.saturating_sub(1),
            TableName::Left => lengths.left = whole.left.saturating_sub(1),
            TableName::Right => lengths.right = whole.right.saturating_sub(1),
            TableName::Walk => lengths.walk = whole.walk.saturating_sub(1),
            TableName::Marks => lengths.marks = whole.marks.saturating_sub(1),
        }
        lengths
    }
}

/// What a call is handed of whole tables: all, or one of them a place short.
pub(crate) fn handed_lengths(short: Option<TableName>, whole: Lengths) -> Lengths
    ensures { result ≡ handed_lengths short whole }
{
    match short {
        Some(table) => table.shorten(whole),
        None => whole,
    }
}

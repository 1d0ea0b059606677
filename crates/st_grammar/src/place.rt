ghost use Rattle.std.specs.Prelude.{◌≡◌};

use st_filter::Who;

/// The place of a token in the grammar of policies.
#[derive(Clone, Copy, Debug, PartialEq, Eq)]
pub enum Place {
    /// The beginning of a row, before the first header.
    Start,
    /// The beginning of a row after a header.
    Row,
    /// After `Policy`.
    PolicyColon,
    Binary,
    /// After a header's binary.
    Comma,
    Emulation,
    EmulationColon,
    System,
    /// After a header.
    HeaderEnd,
    /// After the name of a filter.
    NameColon,
    /// After the colon of a filter: an expression or an action.
    Clause,
    /// An operand of an expression.
    Operand,
    /// After a label.
    Label,
    /// The index of a label.
    Index,
    IndexEnd,
    Operator,
    /// The text that an argument is compared with.
    Text,
    /// After an operand.
    Joint,
    /// After `then`.
    Action,
    /// After `deny`.
    Denial,
    Error,
    ErrorEnd,
    /// After an action: whether `as` and `log` may follow.
    Tail { grant: bool, log: bool },
    /// After `as`.
    Grant { log: bool },
    /// After the user of a grant.
    User { log: bool },
    /// The group of a grant.
    Group { log: bool },
    /// After the comma of a filter.
    If,
    Who,
    Comparison(Who),
    Id(Who),
    /// After the predicate of a filter.
    FilterEnd,
}

impl Place {
    ghost use Rattle.st_grammar.specs.Reading.{ends_filter, is_between_rows, is_binary_place};

    /// Whether the end of a line ends a filter at this place.
    pub fn ends_filter(self) -> bool
        ensures { result ≡ ends_filter self }
    {
        match self {
            Place::Denial => true,
            Place::Tail { .. } => true,
            Place::User { .. } => true,
            Place::FilterEnd => true,
            _ => false,
        }
    }

    /// Whether this is the place of a header's binary.
    pub fn is_binary(self) -> bool
        ensures { result ≡ is_binary_place self }
    {
        matches!(self, Place::Binary)
    }

    /// Whether no row has begun at this place.
    pub fn is_between_rows(self) -> bool
        ensures { result ≡ is_between_rows self }
    {
        matches!(self, Place::Start | Place::Row)
    }
}

ghost use Rattle.std.specs.Prelude.{◌≡◌, option_copied};
ghost use Rattle.st_audit.specs.How.{marks_of};

use st_filter::Filter;

/// What an audit says of a filter.
#[derive(Clone, Copy, Debug, PartialEq, Eq)]
pub struct Marks {
    /// Whether the filter grants ids.
    pub grants: bool,
    /// Whether the calls that the filter decides are marked.
    pub logs: bool,
}

impl Marks {
    /// The marks of a filter; none without a filter.
    pub fn of(filter: Option<&Filter>) -> Self
        ensures { result ≡ marks_of (option_copied filter.entry) }
    {
        match filter {
            Some(filter) => Marks {
                grants: filter.grant().is_some(),
                logs: filter.log(),
            },
            None => Marks {
                grants: false,
                logs: false,
            },
        }
    }
}

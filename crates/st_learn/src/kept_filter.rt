ghost use Rattle.std.specs.Prelude.{◌≡◌};
ghost use Rattle.st_learn.specs.Kept.{filter_of};

use st_filter::Filter;

/// A filter that a session keeps. That of a reply stays where the script has it, and isn't copied.
#[derive(Debug, Drop)]
pub enum KeptFilter<'a> {
    Learnt(Filter),
    Replied(&'a Filter),
}

impl<'a> KeptFilter<'a> {
    /// The filter.
    pub fn get(&self) -> &Filter
        ensures { result.now ≡ filter_of self.now }
    {
        match self {
            KeptFilter::Learnt(filter) => filter,
            KeptFilter::Replied(filter) => filter,
        }
    }
}

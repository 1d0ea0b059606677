// The entry of the last step.
ghost use Rattle.std.specs.Prelude.{◌≡◌, None};

use st_trace::Entry;

/// The entry of the last step, if there was one. It stays here, so that no step drops one.
pub struct LastEntry {
    pub entry: Option<Entry>,
}

// Written out, so that whoever drops it calls this, and doesn't drop the parts of an entry one by one.
impl Drop for LastEntry {
    fn drop(self) {
        let Self { entry: _ } = self;
    }
}

impl LastEntry {
    /// No entry yet.
    pub fn none() -> LastEntry
        ensures { result.entry ≡ None }
    {
        LastEntry { entry: None }
    }
}

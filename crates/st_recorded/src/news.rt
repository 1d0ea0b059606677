// What an entry means for runners that wait.
use st_base::{Seq, Tid};
use st_trace::{Change, Entry};

/// What a step means for runners that wait.
#[derive(Clone, Copy)]
pub struct News {
    /// Whether its thread has ended.
    pub ended: bool,
    /// The thread that it started, if there is one.
    pub started: Option<Tid>,
    /// Whether it may let other threads move: their process runs another binary, or dies.
    pub may_end_threads: bool,
    /// Whether a call is waiting again.
    pub renews: bool,
    /// The number of the call whose copies are faulty, if there is one.
    pub faulted: Option<Seq>,
}

impl News {
    /// Nothing that concerns others.
    pub fn nothing() -> News {
        News {
            ended: false,
            started: None,
            may_end_threads: false,
            renews: false,
            faulted: None,
        }
    }
}

/// What this entry means for runners that wait.
pub fn news_of(entry: &Entry) -> News {
    let mut news = News::nothing();
    match entry {
        Entry::Ended { .. } => news.ended = true,
        Entry::Faulted { seq, .. } => news.faulted = Some(*seq),
        Entry::Used { changes, .. } | Entry::Reloaded { changes, .. } => {
            add_changes(&mut news, changes.as_slice());
        }
        _ => {}
    }
    news
}

fn add_changes(news: &mut News, changes: &[Change]) {
    for change in changes {
        match change {
            Change::Forked { tid, .. } => news.started = Some(*tid),
            Change::Execed { .. } | Change::Dying(_) => news.may_end_threads = true,
            Change::Renewed { .. } => news.renews = true,
            _ => {}
        }
    }
}

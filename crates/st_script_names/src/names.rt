ghost use Rattle.std.specs.Prelude.{◌≡◌, ◌≤◌, ◌<◌, ◌+◌, ◌^◌, [], length, OnOk};
ghost use Rattle.std.specs.List.{list_any};
ghost use Rattle.std.specs.Str.{bytes_eq};
ghost use Rattle.st_script_names.specs.Names.{is_name_among, with_new_name, name_number, no_names, with_object, store_count, with_statement, with_says, last_slash, directory_of, is_known_directory};

use indexmap::IndexSet;
use st_base::{Text, is_same_text};
use st_statements::Statement;
use st_statements::lines::saturated;
use st_trace::NewKind;
use std::alloc::{AllocError, Global};
use std::marker::Model;

// Up to this many names are compared one by one, since a hash costs more.
const FEW_NAMES: usize = 4;

// Whether a name is among these, by a comparison with each.
fn is_among(names: &[&[u8]], name: &[u8]) -> bool
    ensures { result ≡ list_any (λ other. bytes_eq name.now other.now) names.now }
{
    names.iter().any(|other| is_same_text(name, other))
}

/// Names, each once and in order, with a lookup by name.
#[derive(Drop)]
pub struct NameIndex<'a> {
    names: IndexSet<&'a [u8]>,
}

impl<'a> Model for NameIndex<'a> {
    ghost use Rattle.std.specs.Prelude.{List, ℕ, map};

    ghost Value = { List (List ℕ) };

    ghost view = { λ n. map (λ name. name.now) n.names.keys };
}

impl<'a> NameIndex<'a> {
    /// No names; it takes no memory.
    pub fn new(alloc: Global) -> Self
        ensures { result ≡ [] }
    {
        NameIndex {
            names: IndexSet::new(alloc),
        }
    }

    /// How many names there are.
    pub fn len(&self) -> usize
        ensures { result ≡ length self.now }
    {
        self.names.len()
    }

    /// Whether a name is in the index.
    pub fn has(&self, name: &[u8]) -> bool
        ensures { result ≡ is_name_among self.now name.now }
    {
        if self.names.len() > FEW_NAMES {
            return self.names.contains(name);
        }
        is_among(self.names.as_slice(), name)
    }

    /// The number of a name, counted from 1; one more than their count if it isn't in the index.
    pub fn number_of(&self, name: &[u8]) -> u32
        ensures { result ≡ name_number self.now name.now }
    {
        let place = self.names.get_index_of(name).unwrap_or(self.names.len());
        saturated(place as u64 + 1)
    }

    /// Adds a name, unless it is in the index.
    pub fn add(&mut self, name: &'a [u8]) -> Result<(), AllocError>
        ensures { OnOk result (self.new ≡ with_new_name self.old name.now) }
    {
        self.names.insert(name)?;
        Ok(())
    }
}

/// What the rows above a row define.
#[derive(Drop)]
pub struct NamesAbove<'a> {
    pub users: NameIndex<'a>,
    pub groups: NameIndex<'a>,
    pub paths: NameIndex<'a>,
    /// The paths of directories.
    pub directories: NameIndex<'a>,
    pub processes: NameIndex<'a>,
    pub threads: NameIndex<'a>,
    /// The threads that forks start.
    pub forked: NameIndex<'a>,
    pub policies: NameIndex<'a>,
    pub instructions: u64,
    /// The filters of policies.
    pub filters: usize,
}

impl<'a> Model for NamesAbove<'a> {
    ghost use Rattle.st_script_names.specs.Names.{Names};

    ghost Value = { Names };

    ghost view = { λ n. record { users = n.users; groups = n.groups; paths = n.paths; directories = n.directories; processes = n.processes; threads = n.threads; forked = n.forked; policies = n.policies; instructions = n.instructions; filters = n.filters } };
}

/// How many instructions it takes to put a text into memory: the stores of the text and of a zero byte, in whole words.
pub fn store_count(bytes: &[u8]) -> u64
    ensures is { result ≡ store_count bytes.now }
    ensures few { result ≤ 2 ^ 60 }
{
    bytes.len() as u64 / 8 + 1
}

fn last_slash(path: &[u8]) -> usize
    ensures { result ≡ last_slash path.now (length path.now) }
{
    let mut last = 0;
    for i in 0..path.len() {
        if path[i] == b'/' {
            last = i;
        }
    }
    last
}

/// The path of the directory that holds a path, which is empty if the directory is the root.
pub fn directory_of(path: &[u8]) -> &[u8]
    ensures { result.now ≡ directory_of path.now }
{
    &path[..path.len().min(last_slash(path))]
}

impl<'a> NamesAbove<'a> {
    /// What no rows define; it takes no memory.
    pub fn new(alloc: Global) -> Self
        ensures { result ≡ no_names }
    {
        NamesAbove {
            users: NameIndex::new(alloc),
            groups: NameIndex::new(alloc),
            paths: NameIndex::new(alloc),
            directories: NameIndex::new(alloc),
            processes: NameIndex::new(alloc),
            threads: NameIndex::new(alloc),
            forked: NameIndex::new(alloc),
            policies: NameIndex::new(alloc),
            instructions: 0,
            filters: 0,
        }
    }

    /// Whether a directory exists: its path is empty, as the root's, or among those of the rows.
    pub fn is_directory(&self, path: &[u8]) -> bool
        ensures { result ≡ is_known_directory self.now.directories path.now }
    {
        path.is_empty() || self.directories.has(path)
    }

    fn add_object(&mut self, path: &'a [u8], kind: &NewKind) -> Result<(), AllocError>
        ensures { OnOk result (self.new ≡ record self.old { paths = with_new_name self.old.paths path.now; directories = with_object self.old.directories path.now kind.now }) }
    {
        self.paths.add(path)?;
        match kind {
            NewKind::Dir => self.directories.add(path),
            _ => Ok(()),
        }
    }

    fn add_fork(&mut self, name: &'a [u8]) -> Result<(), AllocError>
        requires { self.old.instructions < 2 ^ 63 }
        ensures { OnOk result (self.new ≡ record self.old { forked = with_new_name self.old.forked name.now; instructions = self.old.instructions + 1 }) }
    {
        self.forked.add(name)?;
        self.instructions += 1;
        Ok(())
    }

    /// Adds what a row defines.
    pub fn add(&mut self, statement: &'a Statement) -> Result<(), AllocError>
        requires instructions { self.old.instructions < 2 ^ 63 }
        requires filters { self.old.filters < 2 ^ 63 }
        ensures { OnOk result (self.new ≡ with_statement self.old statement.now) }
    {
        match statement {
            Statement::User(user) => self.users.add(user.name.bytes()),
            Statement::Group(group) => self.groups.add(group.name.bytes()),
            Statement::Object { path, new } => self.add_object(path.bytes(), &new.kind),
            Statement::Process(process) => self.processes.add(process.name.bytes()),
            Statement::Thread { name, .. } => self.threads.add(name.bytes()),
            Statement::Policy { name, .. } => self.policies.add(name.bytes()),
            Statement::Filter(_) => {
                self.filters += 1;
                Ok(())
            }
            Statement::Fork(name) => self.add_fork(name.bytes()),
            Statement::Store(_, _) | Statement::Call(_, _) | Statement::Reload(_) => {
                self.instructions += 1;
                Ok(())
            }
            Statement::Put(_, bytes) => {
                self.instructions += store_count(bytes.bytes());
                Ok(())
            }
            Statement::Reply { .. } | Statement::End => Ok(()),
        }
    }
}

ghost use Rattle.std.specs.Prelude.{◌≡◌, ◌<◌, IfOk};
ghost use Rattle.st_effects.specs.Descriptors.{low_mode};
ghost use Rattle.st_effects.specs.System.{arg_name_at, arg_text_at, register};

use st_base::{Ids, Pid, Tid};
use st_calls::ArgText;
use st_names::AbsName;
use std::alloc::{AllocError, Global};
use std::marker::Model;

/// Who makes a call, and with what.
#[derive(Debug, Drop)]
pub struct Request<'a> {
    pub tid: Tid,
    pub pid: Pid,
    /// The ids that the call is made under.
    pub ids: Ids,
    pub regs: [u64; 6],
    /// The arguments that policies judge, in order; a name is absolute and normalised.
    pub args: &'a [ArgText],
    /// The thread that fork(2) starts; 0 if the call isn't a fork.
    pub child: Tid,
    /// Whether execve(2) keeps the policy that applies.
    pub inherit: bool,
}

impl<'a> Model for Request<'a> {
    ghost use Rattle.st_effects.specs.System as effects;

    ghost Value = { effects.Request };

    ghost view = { λ r. record { tid = r.tid; pid = r.pid; ids = r.ids; regs = r.regs; args = r.args.now; child = r.child; inherit = r.inherit } };
}

impl<'a> Request<'a> {
    /// The register with this number, from 0 to 5.
    pub fn register(&self, i: usize) -> u64
        requires { i < 6 }
        ensures { result ≡ register self.now i }
    {
        self.regs[i]
    }

    /// The low nine bits of a register, which are a mode.
    pub fn mode(&self, i: usize) -> u32
        requires { i < 6 }
        ensures { result ≡ low_mode (register self.now i) }
    {
        (self.register(i) % 512) as u32
    }

    /// The text of an argument, counted from 0; empty if there is no such argument.
    pub fn text(&self, i: usize) -> &[u8]
        ensures { result.now ≡ arg_text_at self.now i }
    {
        match self.args.get(i) {
            Some(arg) => arg.text.bytes(),
            None => b"",
        }
    }

    /// The name that an argument spells, counted from 0; the root if there is no such argument. Its only error is out of memory.
    pub fn name(&self, alloc: Global, i: usize) -> Result<AbsName, AllocError>
        ensures { IfOk result (λ name. name ≡ arg_name_at self.now i) }
    {
        AbsName::of(alloc, self.text(i))
    }
}

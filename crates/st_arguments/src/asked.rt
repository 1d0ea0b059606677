use st_calls::{Rule, SysCall};
use st_names::AbsName;
use std::marker::Model;

/// The call whose arguments are asked for: the rule that says which they are, its registers, and the directory where its relative
/// names begin.
#[derive(Debug, Drop)]
pub struct Asked<'a> {
    pub rule: Rule,
    pub call: SysCall,
    pub regs: [u64; 6],
    pub cwd: &'a AbsName,
}

impl<'a> Model for Asked<'a> {
    ghost use Rattle.st_effects.specs.Progress.{ArgRequest};

    ghost Value = { ArgRequest };

    ghost view = { λ a. record { rule = a.rule; call = a.call; regs = a.regs; cwd = a.cwd.now } };
}

ghost use Rattle.std.specs.Prelude.{◌≡◌, ℕ, List, Ok, false};
ghost use Rattle.st_grammar.specs.Symbol.{seen, Word};
ghost use Rattle.st_grammar.specs.Diagram.{IsStepped, acts, grants, step_start, step_row, step_system, step_operand, step_operator, step_label, step_indexed, word_index, step_text, step_joint, step_action, step_clause, step_as, step_tail, step_denial, step_error, step_grant, step_user, step_group, step_who, step_comparison, step_predicate, next};
ghost use Rattle.st_grammar.specs.Words.{may_test, may_test_label};
ghost use Rattle.st_grammar.specs.Reading.{is_binary_place};

use crate::reader::Reader;
use crate::stack::PendingOperand;
use st_base::{Errno, Text};
use st_filter::{Action, Expr, Grant, Predicate, Who};
use st_grammar::words::{
    id_of, index_of, is_keyword, is_label, may_test, may_test_label, names_for, op_named, sets_ids,
    who_named,
};
use st_grammar::{Env, Place, PolicyFault, Symbol, Unsupported};
use st_lex::unquote;
use std::alloc::Global;

// What may still follow an action: ids to grant, or `log`.
#[derive(Clone, Copy)]
struct Tail {
    grant: bool,
    log: bool,
}

// Rows and headers.
impl<'a> Reader<'a> {
    fn step_start(&mut self, at: u32, symbol: &Symbol<'a>) -> Result<(), PolicyFault>
        ensures { IsStepped result self.new (step_start self.old at (seen symbol.now)) }
    {
        match *symbol {
            Symbol::Line => self.go(Place::Start),
            Symbol::Word(word) => self.only(at, is_keyword(word, b"Policy"), Place::PolicyColon),
            _ => Err(PolicyFault::Expected(at)),
        }
    }

    fn step_row(&mut self, env: &Env, at: u32, symbol: &Symbol<'a>) -> Result<(), PolicyFault>
        ensures { IsStepped result self.new (step_row env.now self.old at (seen symbol.now)) }
    {
        match *symbol {
            Symbol::Line => self.go(Place::Row),
            Symbol::Word(word) => {
                if is_keyword(word, b"Policy") {
                    self.go(Place::PolicyColon)
                } else {
                    self.begin_filter(env, at, word)
                }
            }
            _ => Err(PolicyFault::Expected(at)),
        }
    }

    fn step_system(&mut self, env: &Env, at: u32, symbol: &Symbol<'a>) -> Result<(), PolicyFault>
        ensures { IsStepped result self.new (step_system env.now self.old at (seen symbol.now)) }
    {
        match *symbol {
            Symbol::Word(word) => {
                if !is_keyword(word, env.emulation.word()) {
                    return Err(PolicyFault::NotSupported(at, Unsupported::Emulation));
                }
                self.go(Place::HeaderEnd)
            }
            _ => Err(PolicyFault::Expected(at)),
        }
    }
}

// Expressions.
impl<'a> Reader<'a> {
    // `not`, `true`, or a label.
    fn step_operand_word(
        &mut self,
        alloc: Global,
        at: u32,
        word: &'a [u8],
    ) -> Result<(), PolicyFault>
        ensures { IsStepped result self.new (step_operand self.old at (Word word.now)) }
    {
        if is_keyword(word, b"not") {
            self.wait(PendingOperand::Negation)?;
            return self.join(at);
        }
        if is_keyword(word, b"true") {
            self.complete(alloc, Expr::True)?;
            return Ok(());
        }
        if !is_label(word) {
            return Err(PolicyFault::Expected(at));
        }
        self.place = Place::Label;
        self.label = word;
        self.label_at = at;
        self.index = 0;
        Ok(())
    }

    fn step_operand(
        &mut self,
        alloc: Global,
        at: u32,
        symbol: &Symbol<'a>,
    ) -> Result<(), PolicyFault>
        ensures { IsStepped result self.new (step_operand self.old at (seen symbol.now)) }
    {
        match *symbol {
            Symbol::Open => {
                self.wait(PendingOperand::Group)?;
                self.open(at)
            }
            Symbol::Word(word) => self.step_operand_word(alloc, at, word),
            _ => Err(PolicyFault::Expected(at)),
        }
    }

    fn step_operator(&mut self, at: u32, symbol: &Symbol<'a>) -> Result<(), PolicyFault>
        ensures { IsStepped result self.new (step_operator self.old at (seen symbol.now)) }
    {
        let Symbol::Word(word) = *symbol else {
            return Err(PolicyFault::Expected(at));
        };
        match op_named(word) {
            Some(op) => {
                self.op = op;
                self.go(Place::Text)
            }
            None if is_keyword(word, b"re") => Err(PolicyFault::NotSupported(at, Unsupported::Re)),
            None => Err(PolicyFault::Expected(at)),
        }
    }

    // Whether the filter may test the argument of the current label with this index.
    fn may_test(&self, index: u32) -> bool
        ensures { result ≡ may_test self.now.name self.now.label index }
    {
        may_test(self.name, self.rule, self.label, index)
    }

    // The fault of a label and index that the call has no argument for.
    fn no_argument(&self) -> PolicyFault
        ensures { result ≡ PolicyFault.UnknownArgument self.now.label_at }
    {
        PolicyFault::UnknownArgument(self.label_at)
    }

    fn step_label(&mut self, at: u32, symbol: &Symbol<'a>) -> Result<(), PolicyFault>
        ensures { IsStepped result self.new (step_label self.old at (seen symbol.now)) }
    {
        match *symbol {
            Symbol::OpenBracket => self.go(Place::Index),
            _ if self.may_test(0) => self.step_operator(at, symbol),
            _ => Err(self.no_argument()),
        }
    }

    // The index that is spelled, if any.
    fn step_indexed(&mut self, at: u32, index: Option<u32>) -> Result<(), PolicyFault>
        ensures { IsStepped result self.new (step_indexed self.old at index) }
    {
        match index {
            Some(index) if self.may_test(index) => {
                self.index = index;
                self.go(Place::IndexEnd)
            }
            None if may_test_label(self.name, self.rule, self.label) => {
                Err(PolicyFault::Expected(at))
            }
            _ => Err(self.no_argument()),
        }
    }

    fn step_index(&mut self, at: u32, symbol: &Symbol<'a>) -> Result<(), PolicyFault>
        ensures { IsStepped result self.new (step_indexed self.old at (word_index (seen symbol.now))) }
    {
        match *symbol {
            Symbol::Word(word) => self.step_indexed(at, index_of(word)),
            _ => self.step_indexed(at, None),
        }
    }

    fn step_text(
        &mut self,
        alloc: Global,
        env: &Env,
        at: u32,
        symbol: &Symbol<'a>,
    ) -> Result<(), PolicyFault>
        ensures { IsStepped result self.new (step_text env.now self.old at (seen symbol.now)) }
    {
        let Symbol::Quoted(source) = *symbol else {
            return Err(PolicyFault::Expected(at));
        };
        let test = Expr::Test {
            label: Text::of(alloc, self.label)?,
            index: self.index,
            op: self.op,
            text: unquote(alloc, source, &env.dollars)?,
        };
        self.complete(alloc, test)?;
        Ok(())
    }

    // `and`, `or`, or `then` after an operand.
    fn step_joint_word(&mut self, alloc: Global, at: u32, word: &'a [u8]) -> Result<(), PolicyFault>
        ensures { IsStepped result self.new (step_joint self.old at (Word word.now)) }
    {
        if is_keyword(word, b"and") {
            self.join_both(alloc)?;
            return self.join(at);
        }
        self.conclude(alloc)?;
        if is_keyword(word, b"or") {
            self.join_either(alloc)?;
            return self.join(at);
        }
        let ends = is_keyword(word, b"then") && self.parens == 0;
        self.only(at, ends, Place::Action)
    }

    fn step_joint(&mut self, alloc: Global, at: u32, symbol: &Symbol<'a>) -> Result<(), PolicyFault>
        ensures { IsStepped result self.new (step_joint self.old at (seen symbol.now)) }
    {
        match *symbol {
            Symbol::Close => {
                if self.parens == 0 {
                    return Err(PolicyFault::Expected(at));
                }
                self.parens -= 1;
                self.conclude(alloc)?;
                self.close_group(alloc)?;
                self.go(Place::Joint)
            }
            Symbol::Word(word) => self.step_joint_word(alloc, at, word),
            _ => Err(PolicyFault::Expected(at)),
        }
    }
}

// Actions and what follows them.
impl<'a> Reader<'a> {
    // Sets the filter's action.
    fn act(&mut self, action: Action, next: Place) -> Result<(), PolicyFault>
        ensures { IsStepped result self.new (Ok (acts action next self.old)) }
    {
        self.action = action;
        self.go(next)
    }

    fn step_action(&mut self, env: &Env, at: u32, symbol: &Symbol<'a>) -> Result<(), PolicyFault>
        ensures { IsStepped result self.new (step_action env.now self.old at (seen symbol.now)) }
    {
        let Symbol::Word(word) = *symbol else {
            return Err(PolicyFault::Expected(at));
        };
        if is_keyword(word, b"permit") {
            self.act(
                Action::Permit,
                Place::Tail {
                    grant: true,
                    log: true,
                },
            )
        } else if is_keyword(word, b"deny") {
            self.act(Action::Deny(Errno::EPERM), Place::Denial)
        } else if !is_keyword(word, b"ask") {
            Err(PolicyFault::Expected(at))
        } else if env.learn {
            Err(PolicyFault::AskWithLearn(at))
        } else {
            self.act(
                Action::Ask,
                Place::Tail {
                    grant: false,
                    log: true,
                },
            )
        }
    }

    fn step_clause(
        &mut self,
        alloc: Global,
        env: &Env,
        at: u32,
        symbol: &Symbol<'a>,
    ) -> Result<(), PolicyFault>
        ensures { IsStepped result self.new (step_clause env.now self.old at (seen symbol.now)) }
    {
        if symbol.is_action() {
            self.step_action(env, at, symbol)
        } else {
            self.step_operand(alloc, at, symbol)
        }
    }

    fn step_as(&mut self, env: &Env, at: u32, log: bool) -> Result<(), PolicyFault>
        ensures { IsStepped result self.new (step_as env.now self.old at log) }
    {
        if !env.elevate {
            return Err(PolicyFault::ElevateWithoutIds(at));
        }
        if sets_ids(self.name, self.rule) {
            return Err(PolicyFault::ElevateOnSetId(at));
        }
        self.go(Place::Grant { log })
    }

    // `as` or `log`, where they may still follow.
    fn step_tail_word(
        &mut self,
        env: &Env,
        may: Tail,
        at: u32,
        word: &'a [u8],
    ) -> Result<(), PolicyFault>
        ensures { IsStepped result self.new (step_tail env.now may.grant may.log self.old at (Word word.now)) }
    {
        if is_keyword(word, b"as") && may.grant {
            return self.step_as(env, at, may.log);
        }
        if !(is_keyword(word, b"log") && may.log) {
            return Err(PolicyFault::Expected(at));
        }
        self.log = true;
        self.go(Place::Tail {
            grant: may.grant,
            log: false,
        })
    }

    fn step_tail(
        &mut self,
        env: &Env,
        may: Tail,
        at: u32,
        symbol: &Symbol<'a>,
    ) -> Result<(), PolicyFault>
        ensures { IsStepped result self.new (step_tail env.now may.grant may.log self.old at (seen symbol.now)) }
    {
        match *symbol {
            Symbol::Line => self.go(Place::Row),
            Symbol::Comma => self.go(Place::If),
            Symbol::Word(word) => self.step_tail_word(env, may, at, word),
            _ => Err(PolicyFault::Expected(at)),
        }
    }

    fn step_denial(&mut self, env: &Env, at: u32, symbol: &Symbol<'a>) -> Result<(), PolicyFault>
        ensures { IsStepped result self.new (step_denial env.now self.old at (seen symbol.now)) }
    {
        match *symbol {
            Symbol::OpenBracket => self.go(Place::Error),
            _ => self.step_tail(
                env,
                Tail {
                    grant: false,
                    log: true,
                },
                at,
                symbol,
            ),
        }
    }

    fn step_error(&mut self, at: u32, symbol: &Symbol<'a>) -> Result<(), PolicyFault>
        ensures { IsStepped result self.new (step_error self.old at (seen symbol.now)) }
    {
        let Symbol::Word(word) = *symbol else {
            return Err(PolicyFault::Expected(at));
        };
        let Some(errno) = Errno::of_word(word) else {
            return Err(PolicyFault::UnknownError(at));
        };
        self.act(Action::Deny(errno), Place::ErrorEnd)
    }
}

// Ids.
impl<'a> Reader<'a> {
    // The grant begins with this user, or with none.
    fn begin_grant(&mut self, user: Option<u32>, next: Place) -> Result<(), PolicyFault>
        ensures { IsStepped result self.new (Ok (grants user next self.old)) }
    {
        self.grant = Some(Grant { user, group: None });
        self.go(next)
    }

    fn step_grant(
        &mut self,
        env: &Env,
        log: bool,
        at: u32,
        symbol: &Symbol<'a>,
    ) -> Result<(), PolicyFault>
        ensures { IsStepped result self.new (step_grant env.now log self.old at (seen symbol.now)) }
    {
        match *symbol {
            Symbol::Colon => self.begin_grant(None, Place::Group { log }),
            Symbol::Word(word) => match id_of(env.users.as_slice(), word) {
                Some(user) => self.begin_grant(Some(user), Place::User { log }),
                None => Err(PolicyFault::UnknownUser(at)),
            },
            _ => Err(PolicyFault::Expected(at)),
        }
    }

    fn step_user(
        &mut self,
        env: &Env,
        log: bool,
        at: u32,
        symbol: &Symbol<'a>,
    ) -> Result<(), PolicyFault>
        ensures { IsStepped result self.new (step_user env.now log self.old at (seen symbol.now)) }
    {
        match *symbol {
            Symbol::Colon => self.go(Place::Group { log }),
            _ => self.step_tail(env, Tail { grant: false, log }, at, symbol),
        }
    }

    fn step_group(
        &mut self,
        env: &Env,
        log: bool,
        at: u32,
        symbol: &Symbol<'a>,
    ) -> Result<(), PolicyFault>
        ensures { IsStepped result self.new (step_group env.now log self.old at (seen symbol.now)) }
    {
        let Symbol::Word(word) = *symbol else {
            return Err(PolicyFault::Expected(at));
        };
        let Some(group) = id_of(env.groups.as_slice(), word) else {
            return Err(PolicyFault::UnknownUser(at));
        };
        if let Some(grant) = self.grant {
            self.grant = Some(Grant {
                user: grant.user,
                group: Some(group),
            });
        }
        self.go(Place::Tail { grant: false, log })
    }

    fn step_who(&mut self, at: u32, symbol: &Symbol<'a>) -> Result<(), PolicyFault>
        ensures { IsStepped result self.new (step_who self.old at (seen symbol.now)) }
    {
        let Symbol::Word(word) = *symbol else {
            return Err(PolicyFault::Expected(at));
        };
        let Some(who) = who_named(word) else {
            return Err(PolicyFault::Expected(at));
        };
        self.go(Place::Comparison(who))
    }

    fn step_comparison(&mut self, who: Who, at: u32, symbol: &Symbol<'a>) -> Result<(), PolicyFault>
        ensures { IsStepped result self.new (step_comparison who self.old at (seen symbol.now)) }
    {
        let Some(cmp) = symbol.comparison() else {
            return Err(PolicyFault::Expected(at));
        };
        self.cmp = cmp;
        self.go(Place::Id(who))
    }

    fn step_predicate(
        &mut self,
        env: &Env,
        who: Who,
        at: u32,
        symbol: &Symbol<'a>,
    ) -> Result<(), PolicyFault>
        ensures { IsStepped result self.new (step_predicate env.now who self.old at (seen symbol.now)) }
    {
        let Symbol::Word(word) = *symbol else {
            return Err(PolicyFault::Expected(at));
        };
        let Some(id) = id_of(names_for(env, who), word) else {
            return Err(PolicyFault::UnknownUser(at));
        };
        self.predicate = Some(Predicate {
            who,
            cmp: self.cmp,
            id,
        });
        self.go(Place::FilterEnd)
    }
}

// All places.
impl<'a> Reader<'a> {
    /// Reads a symbol at every place but a header's binary.
    pub fn step(
        &mut self,
        alloc: Global,
        env: &Env,
        at: u32,
        symbol: &Symbol<'a>,
    ) -> Result<(), PolicyFault>
        requires { is_binary_place self.old.place ≡ false }
        ensures { (known : List (List ℕ)) → IsStepped result self.new (next env.now known self.old at (seen symbol.now)) }
    {
        match self.place {
            Place::Start => self.step_start(at, symbol),
            Place::Row => self.step_row(env, at, symbol),
            Place::PolicyColon => self.only(at, symbol.is_colon(), Place::Binary),
            Place::Binary => unreachable!(),
            Place::Comma => self.only(at, symbol.is_comma(), Place::Emulation),
            Place::Emulation => {
                self.only(at, symbol.is_keyword(b"Emulation"), Place::EmulationColon)
            }
            Place::EmulationColon => self.only(at, symbol.is_colon(), Place::System),
            Place::System => self.step_system(env, at, symbol),
            Place::NameColon => self.only(at, symbol.is_colon(), Place::Clause),
            Place::Clause => self.step_clause(alloc, env, at, symbol),
            Place::Operand => self.step_operand(alloc, at, symbol),
            Place::Label => self.step_label(at, symbol),
            Place::Index => self.step_index(at, symbol),
            Place::IndexEnd => self.only(at, symbol.is_close_bracket(), Place::Operator),
            Place::Operator => self.step_operator(at, symbol),
            Place::Text => self.step_text(alloc, env, at, symbol),
            Place::Joint => self.step_joint(alloc, at, symbol),
            Place::Action => self.step_action(env, at, symbol),
            Place::Denial => self.step_denial(env, at, symbol),
            Place::Error => self.step_error(at, symbol),
            Place::ErrorEnd => self.only(
                at,
                symbol.is_close_bracket(),
                Place::Tail {
                    grant: false,
                    log: true,
                },
            ),
            Place::Tail { grant, log } => self.step_tail(env, Tail { grant, log }, at, symbol),
            Place::Grant { log } => self.step_grant(env, log, at, symbol),
            Place::User { log } => self.step_user(env, log, at, symbol),
            Place::Group { log } => self.step_group(env, log, at, symbol),
            Place::If => self.only(at, symbol.is_keyword(b"if"), Place::Who),
            Place::Who => self.step_who(at, symbol),
            Place::Comparison(who) => self.step_comparison(who, at, symbol),
            Place::Id(who) => self.step_predicate(env, who, at, symbol),
            Place::HeaderEnd => self.only(at, symbol.is_line(), Place::Row),
            Place::FilterEnd => self.only(at, symbol.is_line(), Place::Row),
        }
    }
}

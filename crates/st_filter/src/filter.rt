ghost use Rattle.std.specs.Prelude.{◌≡◌, ◌↔◌, IsTrue, IfOk};

use st_base::{Errno, Sequence, Text};
use st_calls::Rule;
use std::alloc::{AllocError, Global};
use std::marker::Model;

/// The filters of one binary, in order.
pub type Policy = Sequence<Filter>;

/// What a filter is for.
#[derive(Debug, Drop)]
pub enum FilterName {
    /// A rule of the model.
    Rule(Rule),
    /// A call outside the model, by its name after `native-`. Its filters are kept, and never tried.
    Other(Text),
}

impl FilterName {
    /// A copy with its own text.
    pub fn copy(&self, alloc: Global) -> Result<Self, AllocError>
        ensures { IfOk result (λ copied. copied ≡ self.now) }
    {
        Ok(match self {
            FilterName::Rule(rule) => FilterName::Rule(*rule),
            FilterName::Other(name) => FilterName::Other(name.copy(alloc)?),
        })
    }
}

/// How a test compares an argument with its text.
#[derive(Clone, Copy, Debug, PartialEq, Eq)]
pub enum Op {
    /// The text, as a pattern, matches the argument or a prefix of it that a slash follows.
    Match,
    /// All bytes are the same.
    Eq,
    /// Some byte differs.
    Neq,
    /// The text occurs in the argument.
    Sub,
    /// The text doesn't occur in the argument.
    Nsub,
    /// The argument is a directory on the way to the text, or the text itself.
    Inpath,
}

/// A filter's test of a call's arguments.
#[derive(Debug, Drop)]
pub enum Expr {
    /// True of every call.
    True,
    /// The argument with this label and index compares with the text as the operator says.
    Test {
        label: Text,
        index: u32,
        op: Op,
        text: Text,
    },
    Not(Box<Expr>),
    And(Box<Expr>, Box<Expr>),
    Or(Box<Expr>, Box<Expr>),
}

impl Expr {
    ghost use Rattle.st_filter.specs.Formula.{formula};

    /// A copy with its own operands.
    pub fn copy(&self, alloc: Global) -> Result<Self, AllocError>
        ensures { IfOk result (λ copied. formula copied ≡ formula self.now) }
    {
        Ok(match self {
            Expr::True => Expr::True,
            Expr::Test {
                label,
                index,
                op,
                text,
            } => Expr::Test {
                label: label.copy(alloc)?,
                index: *index,
                op: *op,
                text: text.copy(alloc)?,
            },
            Expr::Not(operand) => Expr::Not(Box::new(alloc, operand.copy(alloc)?)?),
            Expr::And(left, right) => Expr::And(
                Box::new(alloc, left.copy(alloc)?)?,
                Box::new(alloc, right.copy(alloc)?)?,
            ),
            Expr::Or(left, right) => Expr::Or(
                Box::new(alloc, left.copy(alloc)?)?,
                Box::new(alloc, right.copy(alloc)?)?,
            ),
        })
    }
}

/// What a filter does with a call that it holds of.
#[derive(Clone, Copy, Debug, PartialEq, Eq)]
pub enum Action {
    Permit,
    Deny(Errno),
    /// The operator is asked; until then the filter decides nothing.
    Ask,
}

/// The ids that a permit grants for one call: `as user:group`.
#[derive(Clone, Copy, Debug, PartialEq, Eq)]
pub struct Grant {
    pub user: Option<u32>,
    pub group: Option<u32>,
}

/// Whose id a predicate looks at.
#[derive(Clone, Copy, Debug, PartialEq, Eq)]
pub enum Who {
    User,
    Group,
}

/// How a predicate compares: `=`, `!=`, `<`, `>`.
#[derive(Clone, Copy, Debug, PartialEq, Eq)]
pub enum Cmp {
    Same,
    Other,
    Below,
    Above,
}

/// A test of the caller's effective id: `if user = 0`.
#[derive(Clone, Copy, Debug, PartialEq, Eq)]
pub struct Predicate {
    pub who: Who,
    pub cmp: Cmp,
    pub id: u32,
}

/// One filter of a policy, as in systrace(1), "FILTER EXPRESSIONS".
#[derive(Debug, Drop)]
pub struct Filter {
    name: FilterName,
    expr: Expr,
    action: Action,
    grant: Option<Grant>,
    log: bool,
    predicate: Option<Predicate>,
}

impl Model for Filter {
    ghost use Rattle.std.specs.Coded.{codes};
    ghost use Rattle.st_filter.specs.Formula.{FilterValue, formula};
    ghost use Rattle.st_filter.specs.FormulaCode.{formula_code};

    ghost Value = { FilterValue };

    ghost coded = { Prim.hlevel (codes, formula_code) };

    ghost view = { λ f. record { name = f.name; formula = formula f.expr; action = f.action; grant = f.grant; log = f.log; predicate = f.predicate } };
}

impl Filter {
    ghost use Rattle.st_filter.specs.Formula.{formula};
    ghost use Rattle.st_filter.specs.Policies.{is_for};

    /// What the filter is for.
    pub fn name(&self) -> &FilterName
        ensures { result.now ≡ self.now.name }
    {
        &self.name
    }

    /// A filter with these parts. Any parts make one: a test of an argument that a call lacks doesn't hold of the call.
    pub fn new(
        name: FilterName,
        expr: Expr,
        action: Action,
        grant: Option<Grant>,
        log: bool,
        predicate: Option<Predicate>,
    ) -> Self
        ensures { result ≡ record { name = name; formula = formula expr; action = action; grant = grant; log = log; predicate = predicate } }
    {
        Filter {
            name,
            expr,
            action,
            grant,
            log,
            predicate,
        }
    }

    /// Which calls the filter holds of.
    pub fn expr(&self) -> &Expr
        ensures { formula result.now ≡ self.now.formula }
    {
        &self.expr
    }

    /// What the filter does with a call that it holds of.
    pub fn action(&self) -> Action
        ensures { result ≡ self.now.action }
    {
        self.action
    }

    /// The ids that the filter grants.
    pub fn grant(&self) -> Option<Grant>
        ensures { result ≡ self.now.grant }
    {
        self.grant
    }

    /// Whether the audit marks the calls that the filter decides.
    pub fn log(&self) -> bool
        ensures { result ≡ self.now.log }
    {
        self.log
    }

    /// The ids that the filter requires.
    pub fn predicate(&self) -> Option<Predicate>
        ensures { result ≡ self.now.predicate }
    {
        self.predicate
    }

    /// A copy with its own texts and expression.
    pub fn copy(&self, alloc: Global) -> Result<Self, AllocError>
        ensures { IfOk result (λ copied. copied ≡ self.now) }
    {
        Ok(Filter {
            name: self.name.copy(alloc)?,
            expr: self.expr.copy(alloc)?,
            action: self.action,
            grant: self.grant,
            log: self.log,
            predicate: self.predicate,
        })
    }

    /// Whether the filter is for this rule.
    pub fn is_for(&self, rule: Rule) -> bool
        ensures value { result ≡ is_for rule self.now.name }
        ensures same { IsTrue result ↔ (self.now.name ≡ FilterName.Rule rule) }
    {
        match &self.name {
            FilterName::Rule(name) => *name == rule,
            FilterName::Other(_) => false,
        }
    }
}

use tl_text::{Lit, Name};

/// What a declaration binds.
#[derive(Debug)]
pub enum Target {
    /// `_`
    Wild,
    /// `x`
    Var(Name),
}

impl Drop for Target {
    fn drop(self) {
        match self {
            Target::Wild => {}
            Target::Var(_) => {}
        }
    }
}

/// What it is bound to.
#[derive(Debug)]
pub enum Value {
    /// A literal.
    Literal(Lit),
    /// `print "s"`
    Printed(Name),
}

impl Drop for Value {
    fn drop(self) {
        match self {
            Value::Literal(_) => {}
            Value::Printed(_) => {}
        }
    }
}

/// An item of a source that is built: `val pat = exp`.
#[derive(Debug)]
pub struct SourceItem {
    pub target: Target,
    pub value: Value,
}

impl Drop for SourceItem {
    fn drop(self) {
        let SourceItem {
            target: _,
            value: _,
        } = self;
    }
}
